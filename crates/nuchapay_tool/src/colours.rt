//! The colours of a text for a terminal.

ghost use Rattle.std.specs.Prelude.{◌≡◌};
ghost use Rattle.nuchapay_tool.specs.Colours.{blue, bold, plain, red};

/// What begins bold red text, where colours are asked for; else nothing.
pub(crate) fn red<'a>(colour: bool) -> &'a str
    ensures { result.now ≡ red colour }
{
    if colour { "\x1b[1;31m" } else { "" }
}

/// What begins bold blue text, where colours are asked for; else nothing.
pub(crate) fn blue<'a>(colour: bool) -> &'a str
    ensures { result.now ≡ blue colour }
{
    if colour { "\x1b[1;34m" } else { "" }
}

/// What begins bold text, where colours are asked for; else nothing.
pub(crate) fn bold<'a>(colour: bool) -> &'a str
    ensures { result.now ≡ bold colour }
{
    if colour { "\x1b[1m" } else { "" }
}

/// What ends colours and bold text, where colours are asked for; else nothing.
pub(crate) fn plain<'a>(colour: bool) -> &'a str
    ensures { result.now ≡ plain colour }
{
    if colour { "\x1b[0m" } else { "" }
}
