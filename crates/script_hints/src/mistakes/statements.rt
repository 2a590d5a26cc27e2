//! Mistakes that are often made at the beginning of a statement.

ghost use Rattle.std.specs.Prelude.{Contains, IfSome, map};
ghost use Rattle.script_hints.specs.Mistakes.{StandsAround};
ghost use Rattle.script_hints.specs.declared.mistakes.statements.TheConstants.{STATEMENTS};

use crate::mistake::{Made, Mending, Repair, Shown, find_mistake};
use script_context::{Blamed, Expected};

// The table, given to the macro that takes a part of each row.
macro_rules! statements {
    ($part:ident) => {
        $part! {
            [_ _ "var" _ _ _] fits "let" writes Over(2, 2, "let") =>
                "a variable of a method is declared by `let`, and can be set again";
            [_ _ "func" _ _ _] fits "let" shows OpenBrace writes Close(1) =>
                "a method does not stand in a method: add `}` before `func`";
            [_ _ "invariant" _ _ _] fits "let" =>
                "an invariant stands in an actor, before its methods";
            [_ _ "root" _ _ _] fits "let" shows OpenBrace writes Close(0) =>
                "the method is not closed: add `}` before `root`";
            [_ _ "actor" _ _ _] fits "let" shows OpenBrace writes Close(0) =>
                "the method is not closed: add `}` before `actor`";
            [_ _ "local" _ _ _] fits "let" shows OpenBrace writes Close(0) =>
                "the method is not closed: add `}` before `local`";
            [_ _ "executor" _ _ _] fits "let" shows OpenBrace writes Close(0) =>
                "the method is not closed: add `}` before `executor`";
            [_ _ "else" _ _ _] fits "let" =>
                "an `else` stands right after the `}` of its `if`";
            [_ _ "return" _ _ _] fits "let" lacks "return" shows Group =>
                "the block of a group does not return: set a variable, and return it after the group";
            [_ _ "KEYWORD" _ _ _] fits "let" lacks "yield" =>
                "what waits, gives way, returns, cancels, or makes a task or a binding does not stand in an `assume`";
            [_ "guard" _ _ _ _] fits "=" lacks "==" =>
                "there is no `guard`: write `if` with the opposite test, as `if !x { return 0; }`";
            [_ "async" "let" _ _ _] fits "=" lacks "==" =>
                "a task is made by `spawn`: `let h = spawn A.f();`, and its value is `let v = await task h;`";
            [_ "for" _ _ _ _] fits "=" lacks "==" =>
                "there is no `for`: count in a variable, and test it in a `while`";
            [_ "repeat" _ _ _ _] fits "=" lacks "==" =>
                "there is no `repeat`: write a `while`";
            [_ "do" "{" _ _ _] fits "=" lacks "==" =>
                "there is no `do`: a fault is caught by `else`, as in `let v = await A.f() else 0;`";
            [_ "switch" _ _ _ _] fits "=" lacks "==" =>
                "there is no `switch`: write an `if` for each case";
            [_ "break" _ _ _ _] fits "=" lacks "==" =>
                "there is no `break`: the test of the `while` says when it ends";
            [_ "continue" _ _ _ _] fits "=" lacks "==" =>
                "there is no `continue`: put what follows into an `if`";
            [_ "defer" _ _ _ _] fits "=" lacks "==" =>
                "there is no `defer`: write it where the method ends";
            [_ "try" "await" _ _ _] fits "=" lacks "==" writes Over(1, 2, "await") =>
                "there is no `try`: a fault goes on to the caller, unless an `else` after the `await` catches it";
            [_ "Task" "{" _ _ _] fits "=" lacks "==" =>
                "a task is made by `spawn`, of a method: `let h = spawn A.f();`";
            [_ "print" "(" _ _ _] fits "=" lacks "==" =>
                "a script prints nothing: its report has the value of each task, and the fields";
            [_ "NAME" "SUM" "=" _ ";"] fits "=" lacks "==" writes Over(1, 3, "$1 = $1 $2") =>
                "an operator does not assign: write `$1 = $1 $2 $4`";
            [_ "NAME" "SUM" "=" _ _] fits "=" lacks "==" =>
                "an operator does not assign: write `$1 = $1 $2 (..)`";
            [_ "NAME" "+" "+" _ _] fits "=" lacks "==" writes Over(1, 3, "$1 = $1 + 1") =>
                "write `$1 = $1 + 1`";
            [_ "NAME" "-" "-" _ _] fits "=" lacks "==" writes Over(1, 3, "$1 = $1 - 1") =>
                "write `$1 = $1 - 1`";
            [_ "NAME" "==" _ _ _] fits "=" lacks "==" writes Over(2, 2, "=") =>
                "`==` compares: what assigns is `=`";
            [_ "ACTOR" "(" _ _ _] fits "=" lacks "==" =>
                "no instance is made: an actor is there once, and is named by its own name, as in `await $1.f();`";
            [_ "METHOD" "(" _ _ _] fits "=" lacks "==" writes Over(1, 1, "await $a.$1") =>
                "name the actor, and wait: `await $a.$1()`";
            [_ "NAME" "(" _ _ _] fits "=" lacks "==" =>
                "a call names an actor and its method, and waits, as in `await A.$1();`";
            [_ "self" "." "NAME" "(" _] fits "=" lacks "==" writes Over(1, 1, "await $a") =>
                "name the actor, and wait: `await $a.$3()`";
            [_ "self" "." "NAME" "=" _] fits "=" lacks "==" writes Over(1, 3, "$3") =>
                "a field is named alone: `$3`";
            [_ "THIS" "." "NAME" "=" _] fits "=" lacks "==" writes Over(1, 3, "$3") =>
                "a field is named alone: `$3`";
            [_ "NAME" "." "NAME" "=" _] fits "=" lacks "==" =>
                "a field of another actor is set by one of its methods: `await $1.set(1);`";
            [_ "NAME" "." "NAME" "(" _] fits "=" lacks "==" writes Over(1, 1, "await $1") =>
                "a call is awaited: `await $1.$3()`";
            ["let" "NAME" ":" _ _ _] fits "=" lacks "==" writes Over(2, 3, "") =>
                "a variable is a whole number: write no type, as in `let $1 = 0;`";
            ["let" "NAME" ";" _ _ _] fits "=" lacks "==" writes After(1, " = 0") =>
                "a variable begins with a value: `let $1 = 0;`";
            [_ "else" "if" _ _ _] fits "{" =>
                "an `else` has a block: write `else { if .. { .. } }`";
        }
    };
}

pub(crate) static STATEMENTS: [[&str; 9]; 38] = statements!(words);

// What is shown and written for each of these, in the same order.
static MENDED: [Mending; 38] = statements!(mendings);

/// The first of these mistakes that was made.
pub(crate) fn find(blamed: Blamed<'_>, expected: &Expected) -> Option<Made>
    ensures known { IfSome result (λ made. Contains (map (map (λ x. x.now)) STATEMENTS) (map (λ x. x.now) made.words.now)) }
    ensures stands { IfSome result (λ made. StandsAround blamed.entry (map (λ x. x.now) made.words.now)) }
{
    find_mistake(&STATEMENTS, &MENDED, blamed, expected)
}
