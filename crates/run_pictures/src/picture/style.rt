//! Fonts, colours and lines.

/// The classes of the picture. A character of a fixed width is 0.602 times as wide as its font is tall, so that lines can be fitted.
pub(crate) static STYLE: &str = "<style>
text{font-family:'DejaVu Sans Mono',Menlo,Consolas,monospace;font-size:11px;fill:#1b1b1b;white-space:pre}
.h{font-size:16px;font-weight:bold}
.n{font-size:13px;font-weight:bold}
.t{font-size:12px}
.b{font-weight:bold}
.g{fill:#5a5a5a}
.u{fill:#b3261e}
.e{text-anchor:end}
.m{paint-order:stroke;stroke:#ffffff;stroke-width:3px}
.o{stroke:#dddddd}
path{fill:none}
rect{stroke-width:1.6}
.x{stroke:#b3261e;fill:#ffffff;stroke-width:2.4}
.y{stroke:#b3261e;stroke-opacity:.3;stroke-width:3}
.ls{stroke-width:3}
.lc{stroke-width:1.6}
.lr{stroke-width:1.6;stroke-dasharray:7 3}
.lg{stroke-width:1.6;stroke-dasharray:3 3}
.lk{stroke-width:1.6;stroke-dasharray:10 3 2 3}
.lw{stroke-width:2;stroke-dasharray:1.5 5}
.c0{stroke:#3b6ea5;fill:#e6ecf3}.s0{stroke:#3b6ea5}.f0{fill:#3b6ea5}
.c1{stroke:#b8651b;fill:#f6ebe1}.s1{stroke:#b8651b}.f1{fill:#b8651b}
.c2{stroke:#3f7f3a;fill:#e6eee5}.s2{stroke:#3f7f3a}.f2{fill:#3f7f3a}
.c3{stroke:#7a4fa3;fill:#eee8f3}.s3{stroke:#7a4fa3}.f3{fill:#7a4fa3}
.c4{stroke:#1f8a8a;fill:#e2f0f0}.s4{stroke:#1f8a8a}.f4{fill:#1f8a8a}
.c5{stroke:#8a5a2b;fill:#f0eae3}.s5{stroke:#8a5a2b}.f5{fill:#8a5a2b}
.c6{stroke:#b0478f;fill:#f5e7f0}.s6{stroke:#b0478f}.f6{fill:#b0478f}
.c7{stroke:#7d7a1a;fill:#eeeee1}.s7{stroke:#7d7a1a}.f7{fill:#7d7a1a}
.c8{stroke:#52606d;fill:#e9eaec}.s8{stroke:#52606d}.f8{fill:#52606d}
.c9{stroke:#4b4fc4;fill:#e8e8f7}.s9{stroke:#4b4fc4}.f9{fill:#4b4fc4}
.c10{stroke:#1d6b4f;fill:#e2ece8}.s10{stroke:#1d6b4f}.f10{fill:#1d6b4f}
.c11{stroke:#a8870a;fill:#f4efdf}.s11{stroke:#a8870a}.f11{fill:#a8870a}
</style>
";

/// The classes of a picture of several rows, or with folded turns.
pub(crate) static LONG_STYLE: &str = "<style>
.k{stroke:#9a9a9a;fill:#f4f4f4;stroke-dasharray:4 3}
.j{text-anchor:middle}
.fk{fill:#c4c4c4}
.fx{fill:#b3261e}
a text{text-decoration:underline}
</style>
";
