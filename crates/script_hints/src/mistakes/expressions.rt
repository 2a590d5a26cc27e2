//! Mistakes that are often made in an expression, or at the end of a statement.

ghost use Rattle.std.specs.Prelude.{Contains, IfSome, map};
ghost use Rattle.script_hints.specs.Mistakes.{StandsAround};
ghost use Rattle.script_hints.specs.declared.mistakes.expressions.TheConstants.{EXPRESSIONS};

use crate::mistake::{Made, Mending, Repair, Shown, find_mistake};
use script_context::{Blamed, Expected};

// The table, given to the macro that takes a part of each row.
macro_rules! expressions {
    ($part:ident) => {
        $part! {
            [_ "return" "await" _ _ _] fits "1" writes Keep =>
                "keep it first: `let v = await ..; return v;`";
            [_ "if" "await" _ _ _] fits "1" =>
                "keep it first: `let v = await ..; if v { .. }`";
            [_ "while" "await" _ _ _] fits "1" =>
                "keep it before the loop, and again at its end: `let v = await ..; while v { .. v = await ..; }`";
            [_ _ "await" _ _ _] fits "1" =>
                "an `await` stands alone: keep its value first, `let v = await ..;`";
            ["NAME" "=" "spawn" _ _ _] fits "1" =>
                "a task is kept by `let` alone: `let h = spawn ..;`";
            [_ "return" ";" _ _ _] fits "1" writes After(1, " 0") =>
                "a method gives a number: `return 0;`";
            [_ "NAME" ":" _ _ _] fits "+" writes Over(1, 3, "$3") =>
                "an argument has no label: write its value alone";
            [_ _ "/" _ _ _] fits "+" =>
                "there is no division: take away in a `while`, and count";
            [_ _ "%" _ _ _] fits "+" =>
                "there is no remainder: take away in a `while` what is too much";
            [_ _ "?" _ _ _] fits "+" =>
                "there is no `?`: write an `if`, or `else` after an `await`";
            [_ _ "&" _ _ _] fits "+" writes Over(2, 2, "&&") =>
                "`&&` is and, `||` is or";
            [_ _ "|" _ _ _] fits "+" writes Over(2, 2, "||") =>
                "`&&` is and, `||` is or";
            [_ "NUMBER" "." _ _ _] fits "+" =>
                "each value is a whole number: there are no fractions";
            ["=" "self" "." "NAME" "(" _] fits "+" writes Over(1, 1, "await $a") =>
                "name the actor, and wait: `await $a.$3()`";
            [_ "self" "." "NAME" _ _] fits "+" writes Over(1, 3, "$3") =>
                "a field is named alone: `$3`";
            ["=" "NAME" "." "NAME" "(" _] fits "+" writes Over(1, 1, "await $1") =>
                "a call is awaited: `await $1.$3()`";
            [_ "NAME" "." "NAME" "(" _] fits "+" =>
                "a call is awaited, and stands alone: keep its value first, `let v = await $1.$3();`";
            [_ "THIS" "." "NAME" _ _] fits "+" writes Over(1, 3, "$3") =>
                "a field is named alone: `$3`";
            [_ "NAME" "." "NAME" _ _] fits "+" =>
                "a field of another actor is not read from outside: let a method of `$1` return it";
            [_ "ACTOR" "(" _ _ _] fits "+" =>
                "no instance is made: an actor is there once, and is named by its own name, as in `await $1.f()`";
            ["=" "METHOD" "(" _ _ _] fits "+" writes Over(1, 1, "await $a.$1") =>
                "name the actor, and wait: `await $a.$1()`";
            [_ "METHOD" "(" _ _ _] fits "+" =>
                "name the actor, wait, and keep its value first: `let v = await $a.$1();`";
            [_ "NAME" "(" _ _ _] fits "+" =>
                "there is no function `$1`: a call names an actor and its method, as in `let v = await A.f();`";
            [_ "METHOD" "(" _ _ _] fits "." writes Over(1, 1, "$a.$1") =>
                "name the actor: `$a.$1()`";
            [_ "NAME" "(" _ _ _] fits "." =>
                "a call names an actor and its method: `A.$1()`";
            [_ _ "COMPARES" _ _ _] fits "+" =>
                "comparisons are not chained: write `(a < b) && (b < c)`";
            [_ _ "=" _ _ _] fits "==" writes Over(2, 2, "==") =>
                "`=` assigns: what compares is `==`";
            [_ _ ";" _ _ _] fits ")" shows OpenParenthesis writes After(1, ")") =>
                "a parenthesis is not closed: add `)` before `;`";
            [_ _ "{" _ _ _] fits ")" shows OpenParenthesis writes After(1, ")") =>
                "a parenthesis is not closed: add `)` before `{`";
            [_ _ ")" _ _ _] fits ";" writes Over(2, 2, "") =>
                "no parenthesis is open here: remove this one";
            [_ _ "WORD" _ _ _] fits "{" lacks ";" =>
                "a block stands in braces: `{ .. }`";
            [_ _ "WORD" _ _ _] fits ";" shows Before writes After(1, ";") =>
                "add `;` after `$1`";
            [_ _ "}" _ _ _] fits ";" shows Before writes After(1, ";") =>
                "add `;` after `$1`";
            ["let" "NAME" "NUMBER" _ _ _] fits "=" writes After(1, " =") =>
                "add `=` before the value";
            [_ _ "NUMBER" _ _ _] fits "x" lacks "1" =>
                "a name begins with a letter or `_`";
            [_ _ "KEYWORD" _ _ _] fits "x" lacks "let" writes Over(2, 2, "$2_") =>
                "`$2` is a keyword, and no name; `$2_` would do";
        }
    };
}

pub(crate) static EXPRESSIONS: [[&str; 9]; 36] = expressions!(words);

// What is shown and written for each of these, in the same order.
static MENDED: [Mending; 36] = expressions!(mendings);

/// The first of these mistakes that was made.
pub(crate) fn find(blamed: Blamed<'_>, expected: &Expected) -> Option<Made>
    ensures known { IfSome result (λ made. Contains (map (map (λ x. x.now)) EXPRESSIONS) (map (λ x. x.now) made.words.now)) }
    ensures stands { IfSome result (λ made. StandsAround blamed.entry (map (λ x. x.now) made.words.now)) }
{
    find_mistake(&EXPRESSIONS, &MENDED, blamed, expected)
}
