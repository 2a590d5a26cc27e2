//! Mistakes that are often made outside of methods.

ghost use Rattle.std.specs.Prelude.{Contains, IfSome, map};
ghost use Rattle.script_hints.specs.Mistakes.{StandsAround};
ghost use Rattle.script_hints.specs.declared.mistakes.declarations.TheConstants.{DECLARATIONS};

use crate::mistake::{Made, Mending, Repair, Shown, find_mistake};
use script_context::{Blamed, Expected};

// The table, given to the macro that takes a part of each row.
macro_rules! declarations {
    ($part:ident) => {
        $part! {
            [_ _ "/" "*" _ _] =>
                "a comment begins with `//`, and ends with its line";
            [_ _ "#" _ _ _] =>
                "`#` begins nothing here: a comment begins with `//`, and a field's number is its name alone";
            [_ _ "\"" _ _ _] =>
                "there is no text: each value is a whole number";
            [_ _ "'" _ _ _] =>
                "there is no text: each value is a whole number";
            [_ _ "[" _ _ _] =>
                "there are no arrays: keep each value in a field or a variable of its own";
            [_ _ "}" _ _ _] fits "actor" writes Over(2, 2, "") =>
                "no brace is open here: remove this one";
            [_ _ "func" _ _ _] fits "actor" =>
                "a method stands in an actor: there are no functions outside of one";
            [_ _ "let" _ _ _] fits "actor" =>
                "no instance is made: an actor is there once, and is named by its own name, as in `root a = A.f();`";
            [_ _ "var" _ _ _] fits "actor" =>
                "a field stands in an actor; a value for all tasks is `local L = 0;`";
            [_ _ "invariant" _ _ _] fits "actor" =>
                "an invariant stands in an actor, after its fields";
            [_ _ "await" _ _ _] fits "actor" =>
                "a task that the script starts with is a root: `root a = A.f();`";
            [_ _ "Task" _ _ _] fits "actor" =>
                "a task that the script starts with is a root: `root a = A.f();`";
            [_ _ "async" "let" _ _] fits "actor" =>
                "a task that the script starts with is a root: `root a = A.f();`";
            [_ _ "print" _ _ _] fits "actor" =>
                "a script prints nothing: its report has the value of each task, and the fields";
            [_ _ "import" "NAME" _ _] fits "actor" writes Over(2, 3, "") =>
                "there is nothing to import: remove the line";
            [_ _ "class" _ _ _] fits "actor" writes Over(2, 2, "actor") =>
                "there are actors alone: write `actor`";
            [_ _ "struct" _ _ _] fits "actor" writes Over(2, 2, "actor") =>
                "there are actors alone: write `actor`";
            [_ _ "NAME" "actor" _ _] fits "actor" writes Over(2, 3, "actor") =>
                "there are no modifiers: remove `$2`";
            [_ _ "invariant" _ _ _] fits "func" lacks "actor" shows Invariant writes Join =>
                "an actor has one invariant: join the two with `&&`";
            [_ _ "invariant" _ _ _] fits "func" lacks "actor" =>
                "the invariant stands before the methods: move it up";
            [_ _ "var" _ _ _] fits "func" lacks "actor" =>
                "fields stand before the invariant and the methods: move this one up";
            [_ _ "let" _ _ _] fits "func" lacks "actor" writes Over(2, 2, "var") =>
                "a field is declared by `var`, before the invariant and the methods";
            [_ _ "init" "(" _ _] fits "func" lacks "actor" =>
                "there is no `init`: a field begins with the number of its `var`";
            [_ _ "NAME" "func" _ _] fits "func" lacks "actor" writes Over(2, 3, "func") =>
                "there are no modifiers: remove `$2`";
            [_ _ "NAME" "var" _ _] fits "func" lacks "actor" writes Over(2, 3, "var") =>
                "there are no modifiers: remove `$2`";
            [_ _ "NAME" "let" _ _] fits "func" lacks "actor" writes Over(2, 3, "var") =>
                "there are no modifiers, and a field is declared by `var`";
            [_ _ "root" _ _ _] fits "func" lacks "actor" shows OpenBrace writes Close(0) =>
                "the actor is not closed: add `}` before `root`";
            [_ _ "actor" _ _ _] fits "func" lacks "actor" shows OpenBrace writes Close(0) =>
                "the actor is not closed: add `}` before `actor`";
            [_ _ "local" _ _ _] fits "func" lacks "actor" shows OpenBrace writes Close(0) =>
                "the actor is not closed: add `}` before `local`";
            [_ _ "executor" _ _ _] fits "func" lacks "actor" shows OpenBrace writes Close(0) =>
                "the actor is not closed: add `}` before `executor`";
            [_ ")" "async" _ _ _] fits "{" lacks "+" writes Over(1, 2, "$1") =>
                "a method needs no `async`: each may wait";
            [_ ")" "throws" _ _ _] fits "{" lacks "+" writes Over(1, 2, "$1") =>
                "a method needs no `throws`: each may end with a fault";
            [_ ")" "-" ">" "NAME" _] fits "{" lacks "+" writes Over(1, 4, "$1") =>
                "a method needs no result type: it gives a whole number";
            ["func" "NAME" "{" _ _ _] fits "(" writes After(1, "()") =>
                "write `()` after the method's name";
            [_ "NAME" ":" "NAME" _ _] fits ")" lacks "+" writes Over(2, 3, "") =>
                "a parameter is a whole number: write its name alone";
            [_ "NAME" "NAME" _ _ _] fits ")" lacks "+" writes Over(1, 2, "$2") =>
                "a parameter has no label: write its name alone";
            ["var" "NAME" ":" _ _ _] fits "=" writes Over(2, 3, "") =>
                "a field is a whole number: write no type, as in `var $1 = 0;`";
            ["var" "NAME" ";" _ _ _] fits "=" writes After(1, " = 0") =>
                "a field begins with a number: `var $1 = 0;`";
            ["local" "NAME" ";" _ _ _] fits "=" writes After(1, " = 0") =>
                "a task local begins with a number: `local $1 = 0;`";
            [_ "=" "true" _ _ _] fits "1" lacks "x" writes Over(2, 2, "1") =>
                "`1` stands for true, and `0` for false";
            [_ "=" "false" _ _ _] fits "1" lacks "x" writes Over(2, 2, "0") =>
                "`1` stands for true, and `0` for false";
            [_ _ "NAME" _ _ _] fits "1" lacks "x" =>
                "a number stands here, perhaps after `-`: nothing is computed before the first turn";
            [_ "NUMBER" "SUM" _ _ _] lacks "+" =>
                "a number stands here, and nothing is computed before the first turn";
            [_ "=" "await" _ _ _] fits "x" lacks "1" writes Over(2, 2, "") =>
                "a root needs no `await`: `root a = A.f();`";
        }
    };
}

pub(crate) static DECLARATIONS: [[&str; 9]; 44] = declarations!(words);

// What is shown and written for each of these, in the same order.
static MENDED: [Mending; 44] = declarations!(mendings);

/// The first of these mistakes that was made.
pub(crate) fn find(blamed: Blamed<'_>, expected: &Expected) -> Option<Made>
    ensures known { IfSome result (λ made. Contains (map (map (λ x. x.now)) DECLARATIONS) (map (λ x. x.now) made.words.now)) }
    ensures stands { IfSome result (λ made. StandsAround blamed.entry (map (λ x. x.now) made.words.now)) }
{
    find_mistake(&DECLARATIONS, &MENDED, blamed, expected)
}
