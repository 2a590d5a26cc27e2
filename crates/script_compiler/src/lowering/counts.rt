//! How many numbers and handles stand.

ghost use Rattle.std.specs.Prelude.{◌≡◌, ◌≤◌, ◌<◌, ◌+◌, map};
ghost use Rattle.script_grammar.specs.Tree.{Do, view_action, view_head, view_stmt, block_tree};
ghost use Rattle.script_grammar.specs.Size.{stmt_size, block_size};
ghost use Rattle.script_compiler.specs.Counts.{counted, greater, counts_after, counts_within, most_in, most_of};
ghost use Rattle.script_code.specs.Layout.{greatest};

use script_grammar::{Action, Head, Stmt};
use script_names::NameKind;

/// How many numbers and how many handles stand: the places of the next ones. Parameters and variables hold numbers; task
/// variables and groups are handles.
#[derive(Clone, Copy)]
pub struct PlaceCounts {
    /// How many numbers.
    pub numbers: u32,
    /// How many handles.
    pub handles: u32,
}

/// One name more.
pub(crate) fn count_name(counts: PlaceCounts, kind: NameKind) -> PlaceCounts
    requires { counts.numbers + counts.handles < greatest }
    ensures { result ≡ counted counts kind }
{
    let PlaceCounts { numbers, handles } = counts;
    match kind {
        NameKind::Field => counts,
        NameKind::Number => PlaceCounts {
            numbers: numbers + 1,
            handles,
        },
        NameKind::Task | NameKind::Group => PlaceCounts {
            numbers,
            handles: handles + 1,
        },
    }
}

fn greater(a: PlaceCounts, b: PlaceCounts) -> PlaceCounts
    ensures { result ≡ greater a b }
{
    PlaceCounts {
        numbers: a.numbers.max(b.numbers),
        handles: a.handles.max(b.handles),
    }
}

fn counts_with(counts: PlaceCounts, action: &Action) -> PlaceCounts
    requires { counts.numbers + counts.handles < greatest }
    ensures { result ≡ counts_after counts (Do (view_action action.now)) }
{
    match action {
        Action::Let(_, _) => count_name(counts, NameKind::Number),
        Action::LetTask(_, _) => count_name(counts, NameKind::Task),
        _ => counts,
    }
}

fn counts_after(counts: PlaceCounts, stmt: &Stmt) -> PlaceCounts
    requires { counts.numbers + counts.handles < greatest }
    ensures { result ≡ counts_after counts (view_stmt stmt.now) }
{
    match stmt {
        Stmt::Do(action) => counts_with(counts, action),
        Stmt::Block(_, _) | Stmt::IfElse(_, _, _) => counts,
    }
}

fn counts_within(counts: PlaceCounts, head: &Head) -> PlaceCounts
    requires { counts.numbers + counts.handles < greatest }
    ensures { result ≡ counts_within counts (view_head head.now) }
{
    match head {
        Head::Group(_) => count_name(counts, NameKind::Group),
        _ => counts,
    }
}

#[cycle(most)]
fn most_in(counts: PlaceCounts, stmt: &Stmt) -> PlaceCounts
    requires { counts.numbers + (counts.handles + stmt_size (view_stmt stmt.now)) ≤ greatest }
    ensures { result ≡ most_in counts (view_stmt stmt.now) }
{
    match stmt {
        Stmt::Do(_) => counts_after(counts, stmt),
        Stmt::Block(head, body) => most_of(counts_within(counts, head), body),
        Stmt::IfElse(_, held, failed) => greater(most_of(counts, held), most_of(counts, failed)),
    }
}

/// How many numbers and handles there are at most in the statements of a block, where there are `counts` before it, in time
/// linear in the statements and in all within them.
#[cycle(most)]
pub(crate) fn most_of(counts: PlaceCounts, block: &[Stmt]) -> PlaceCounts
    requires { counts.numbers + (counts.handles + block_size (block_tree (map view_stmt block.now))) ≤ greatest }
    ensures { result ≡ most_of counts (block_tree (map view_stmt block.now)) }
{
    let mut most = PlaceCounts {
        numbers: 0,
        handles: 0,
    };
    let mut standing = counts;
    for stmt in block {
        most = greater(most, most_in(standing, stmt));
        standing = counts_after(standing, stmt);
    }
    greater(most, standing)
}
