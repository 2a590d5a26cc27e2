//! What holds of the definitions.

ghost use Rattle.std.specs.Prelude.{◌≡◌, ℕ, List, true};
ghost use Rattle.std.specs.List.{All};
ghost use Rattle.std.specs.Str.{IsAscii};
ghost use Rattle.script_grammar.specs.Tree.{DeclTree};
ghost use Rattle.script_grammar.specs.Grammar.{IsScript};
ghost use Rattle.script_tokens.specs.Bytes.{is_text};
ghost use Rattle.script_tokens.specs.Lexes.{Lexes};
ghost use Rattle.script_tokens.specs.Pieces.{TokenView};
ghost use Rattle.script_printing.specs.Printed.{printed};
ghost use Rattle.script_printing.specs.Readable.{IsReadable};
ghost use Rattle.script_printing.specs.Limits.{ActorFits};
ghost use Rattle.script_printing.specs.Pieces.{pieces_of_script};
ghost use Rattle.script_printing.specs.Script.{ScriptView, declarations_of, script_in};

use script_tokens::one_reading;

/// A law: the tokens of the printed form spell what is printed. The limit on what is read bounds the heights of
/// expressions and how many blocks are open at once; the parentheses that the printed form adds are then within it
/// too. Statements and atoms stand where the grammar lets them. It does nothing.
pub fn printed_spells()
    ensures { (limit : ℕ) (script : ScriptView) → All (ActorFits limit) script.actors → IsScript limit (pieces_of_script script) (declarations_of script) }
{}

/// A law: the printed form consists of its tokens, where names are names and numbers can be read. It does nothing.
pub fn printed_lexes()
    ensures { (script : ScriptView) → All IsReadable (pieces_of_script script) → Lexes (printed script) (pieces_of_script script) }
{}

/// A law: what any tokens spell within a limit, the tokens of its printed form spell within that limit, with the
/// declarations in the order of their kinds. It does nothing.
pub fn printed_spells_again()
    ensures { (limit : ℕ) (tokens : List TokenView) (decls : List DeclTree) → IsScript limit tokens decls → IsScript limit (pieces_of_script (script_in decls)) (declarations_of (script_in decls)) }
{}

/// A law: what any text spells within a limit is printed as a text that spells the same within that limit, with the
/// declarations in the order of their kinds. So reading what is printed of a script gives its declarations of each
/// kind, and no others. It does nothing.
pub fn printed_reads_back()
    ensures { (limit : ℕ) (text : List ℕ) (tokens : List TokenView) (decls : List DeclTree) → Lexes text tokens → IsScript limit tokens decls → Lexes (printed (script_in decls)) (pieces_of_script (script_in decls)) × IsScript limit (pieces_of_script (script_in decls)) (declarations_of (script_in decls)) }
{}

/// A law: what is printed of what a text spells is ASCII, so it is a text that needs no test. It does nothing.
pub fn printed_is_ascii()
    ensures { (limit : ℕ) (text : List ℕ) (tokens : List TokenView) (decls : List DeclTree) → Lexes text tokens → IsScript limit tokens decls → IsAscii (printed (script_in decls)) }
{}

/// A law: what is printed of what a text spells has only bytes that a script may contain. It does nothing.
pub fn printed_is_text()
    ensures { (limit : ℕ) (text : List ℕ) (tokens : List TokenView) (decls : List DeclTree) → Lexes text tokens → IsScript limit tokens decls → is_text (printed (script_in decls)) ≡ true }
{}

/// A law: scripts with one printed form are equal, where tokens spell one script at most. It does nothing.
pub fn one_printed_form()
    ensures { (limit : ℕ) → ((tokens : List TokenView) (x y : List DeclTree) → IsScript limit tokens x → IsScript limit tokens y → x ≡ y) → (a b : ScriptView) → All (ActorFits limit) a.actors → All (ActorFits limit) b.actors → All IsReadable (pieces_of_script a) → All IsReadable (pieces_of_script b) → printed a ≡ printed b → a ≡ b }
{
    one_reading();
}
