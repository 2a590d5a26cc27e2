//! A reader of tokens, which notes the first refusal.
//!
//! After a refusal it stands at the end of the tokens, where nothing fits, so that what still runs ends soon.
#![tactic(auto, using(crate::proofs::Grown::extends_same, crate::proofs::Grown::grows_same, crate::proofs::Grown::grows_on, crate::proofs::Refused::grows_taken))]

ghost use Rattle.std.specs.Prelude.{◌≡◌, ◌↔◌, true, false, IfOk, IsNone, IsSome, IsTrue};
ghost use Rattle.swift_syntax.specs.DeclaringInside.{IsNewReader};
ghost use Rattle.swift_syntax.specs.Expressions.{after, kind_at, token_at};
ghost use Rattle.swift_syntax.specs.ReadersInside.{Extends, Grows, IsArgumentPut, IsLinked, IsPut, IsStmtPut, lexed_of, taken, takes_if};
ghost use Rattle.swift_syntax.specs.Statements.{Separates, SpellsAnnotation, SpellsType, begins_line, spells_at};

use crate::rule::{Breach, Rule};
use crate::sign::Sign;
use crate::token::{Token, TokenKind};
use crate::tree::{Argument, Expr, ExprForm, Stmt, StmtForm, Tree, ValueType};
use crate::word::Word;
use std::alloc::{AllocError, Global};

/// The tokens of a text, how far they are read, and what was read.
#[derive(Drop)]
pub(crate) struct Reader<'a> {
    /// Where what is read takes its memory.
    pub alloc: Global,
    /// The text.
    pub text: &'a [u8],
    /// Its tokens.
    pub tokens: &'a [Token],
    /// The place of the next token.
    pub at: usize,
    /// The first refusal.
    pub refused: Option<Breach>,
    /// What was read. In a Box, since the prover spells out what a value holds in place wherever it is touched.
    pub tree: Box<Tree>,
}

impl<'a> Reader<'a> {
    /// A reader before the first token.
    ///
    /// # Errors
    ///
    /// `AllocError` where there is no memory for an empty tree.
    pub(crate) fn new(
        alloc: Global,
        text: &'a [u8],
        tokens: &'a [Token],
    ) -> Result<Reader<'a>, AllocError>
        ensures { IfOk result (IsNewReader text.now tokens.now) }
    {
        Ok(Reader {
            alloc,
            text,
            tokens,
            at: 0,
            refused: None,
            tree: Box::new(alloc, Tree::new(alloc))?,
        })
    }

    /// The token at a place; the end of the text where there is none.
    pub(crate) fn token(&self, place: usize) -> Token
        ensures token { result ≡ token_at self.now.text.now self.now.tokens.now place }
        ensures kind { result.kind ≡ kind_at self.now.tokens.now place }
    {
        match self.tokens.get(place) {
            Some(token) => *token,
            None => Token {
                kind: TokenKind::End,
                from: self.text.len(),
                to: self.text.len(),
                begins_line: true,
                after_space: true,
            },
        }
    }

    /// The next token.
    pub(crate) fn here(&self) -> Token
        ensures token { result ≡ token_at self.now.text.now self.now.tokens.now self.now.at }
        ensures kind { result.kind ≡ kind_at self.now.tokens.now self.now.at }
    {
        self.token(self.at)
    }

    /// The token behind the next ones.
    pub(crate) fn ahead(&self, many: usize) -> Token
        ensures kind { many ≡ 1 → result.kind ≡ kind_at self.now.tokens.now (after self.now.at) }
    {
        self.token(self.at.saturating_add(many))
    }

    /// Takes the next token. Its place.
    pub(crate) fn take(&mut self) -> usize
        ensures place { result ≡ self.old.at }
        ensures taken { self.new ≡ taken self.old }
    {
        let place = self.at;
        self.at = place.saturating_add(1);
        place
    }

    /// Notes that a token breaks a rule, unless a refusal was noted before, and goes to the end.
    pub(crate) fn refuse(&mut self, rule: Rule, place: usize)
        ensures noted { IsSome self.new.refused }
        ensures grows { Grows self.old self.new }
    {
        if self.refused.is_none() {
            self.refused = Some(Breach { rule, token: place });
        }
        self.at = usize::MAX;
    }

    /// Notes whether a table has grown.
    pub(crate) fn note(&mut self, is_grown: bool)
        ensures noted { IsNone self.new.refused → (is_grown ≡ true) × (self.new ≡ self.old) }
        ensures grows { Grows self.old self.new }
    {
        if !is_grown {
            self.refuse(Rule::Memory, 0);
        }
    }

    /// Refuses the next token: by a rule of its own where it has one.
    pub(crate) fn unexpected(&mut self)
        ensures noted { IsSome self.new.refused }
        ensures grows { Grows self.old self.new }
    {
        let rule = match self.here().kind {
            TokenKind::Huge => Rule::OutOfRange,
            TokenKind::Text | TokenKind::Interpolated => Rule::Strings,
            TokenKind::Key(Word::Foreign | Word::Nonisolated) => Rule::Outside,
            TokenKind::Sign(Sign::Foreign) => Rule::Operator,
            TokenKind::Sign(Sign::At | Sign::OpenBracket) => Rule::Outside,
            _ => Rule::Unexpected,
        };
        self.refuse(rule, self.at);
    }

    /// Whether the next token is this sign.
    pub(crate) fn is_sign(&self, sign: Sign) -> bool
        ensures { IsTrue result ↔ (kind_at self.now.tokens.now self.now.at ≡ TokenKind.Sign sign) }
    {
        match self.here().kind {
            TokenKind::Sign(found) => found == sign,
            _ => false,
        }
    }

    /// Whether the token behind the next ones is this sign.
    pub(crate) fn is_sign_ahead(&self, many: usize, sign: Sign) -> bool
        ensures { many ≡ 1 → IsTrue result ↔ (kind_at self.now.tokens.now (after self.now.at) ≡ TokenKind.Sign sign) }
    {
        match self.ahead(many).kind {
            TokenKind::Sign(found) => found == sign,
            _ => false,
        }
    }

    /// Whether the next token is this keyword.
    pub(crate) fn is_key(&self, word: Word) -> bool
        ensures { IsTrue result ↔ (kind_at self.now.tokens.now self.now.at ≡ TokenKind.Key word) }
    {
        match self.here().kind {
            TokenKind::Key(found) => found == word,
            _ => false,
        }
    }

    /// Whether the token at a place is a name of these bytes.
    pub(crate) fn spells(&self, place: usize, name: &str) -> bool
        ensures { result ≡ spells_at self.now.text.now self.now.tokens.now place name.now }
    {
        let token = self.token(place);
        match token.kind {
            TokenKind::Name => match self.text.get(token.from..token.to) {
                Some(bytes) => bytes == name.as_bytes(),
                None => false,
            },
            _ => false,
        }
    }

    /// Whether the next token is a name of these bytes.
    pub(crate) fn is_word(&self, name: &str) -> bool
        ensures { result ≡ spells_at self.now.text.now self.now.tokens.now self.now.at name.now }
    {
        self.spells(self.at, name)
    }

    /// Takes a sign, if it is the next token.
    pub(crate) fn takes(&mut self, sign: Sign) -> bool
        ensures found { IsTrue result ↔ (kind_at self.old.tokens.now self.old.at ≡ TokenKind.Sign sign) }
        ensures taken { self.new ≡ takes_if result self.old }
    {
        let found = self.is_sign(sign);
        if found {
            self.at = self.at.saturating_add(1);
        }
        found
    }

    /// Takes a keyword, if it is the next token.
    pub(crate) fn takes_key(&mut self, word: Word) -> bool
        ensures found { IsTrue result ↔ (kind_at self.old.tokens.now self.old.at ≡ TokenKind.Key word) }
        ensures taken { self.new ≡ takes_if result self.old }
    {
        let found = self.is_key(word);
        if found {
            self.at = self.at.saturating_add(1);
        }
        found
    }

    /// Takes a name of these bytes, if it is the next token.
    pub(crate) fn takes_word(&mut self, name: &str) -> bool
        ensures found { result ≡ spells_at self.old.text.now self.old.tokens.now self.old.at name.now }
        ensures taken { self.new ≡ takes_if result self.old }
    {
        let found = self.is_word(name);
        if found {
            self.at = self.at.saturating_add(1);
        }
        found
    }

    /// Takes this sign.
    pub(crate) fn sign(&mut self, sign: Sign)
        ensures taken { IsNone self.new.refused → (kind_at self.old.tokens.now self.old.at ≡ TokenKind.Sign sign) × (self.new ≡ taken self.old) }
        ensures grows { Grows self.old self.new }
    {
        if !self.takes(sign) {
            self.unexpected();
        }
    }

    /// Takes this keyword.
    pub(crate) fn key(&mut self, word: Word)
        ensures taken { IsNone self.new.refused → (kind_at self.old.tokens.now self.old.at ≡ TokenKind.Key word) × (self.new ≡ taken self.old) }
        ensures grows { Grows self.old self.new }
    {
        if !self.takes_key(word) {
            self.unexpected();
        }
    }

    /// Takes a name of these bytes.
    pub(crate) fn word(&mut self, name: &str)
        ensures taken { IsNone self.new.refused → (spells_at self.old.text.now self.old.tokens.now self.old.at name.now ≡ true) × (self.new ≡ taken self.old) }
        ensures grows { Grows self.old self.new }
    {
        if !self.is_word(name) {
            self.unexpected();
        }
        self.name();
    }

    /// Wants the next token on the line of what stands before it.
    pub(crate) fn on_line(&mut self, rule: Rule)
        ensures same { IsNone self.new.refused → self.new ≡ self.old }
        ensures line { IsNone self.new.refused → begins_line (lexed_of self.old) self.old.at ≡ false }
        ensures grows { Grows self.old self.new }
    {
        if self.here().begins_line {
            self.refuse(rule, self.at);
        }
    }

    /// Takes a name. Its place.
    pub(crate) fn name(&mut self) -> usize
        ensures taken { IsNone self.new.refused → (kind_at self.old.tokens.now self.old.at ≡ TokenKind.Name) × (result ≡ self.old.at) × (self.new ≡ taken self.old) }
        ensures grows { Grows self.old self.new }
    {
        let at = self.at;
        let before = self.token(at.saturating_sub(1)).kind;
        if self.here().after_space && matches!(before, TokenKind::Sign(Sign::Dot)) {
            self.refuse(Rule::Spaces, at);
        }
        match self.here().kind {
            TokenKind::Name => self.take(),
            _ => {
                self.unexpected();
                0
            }
        }
    }

    /// Takes a type.
    pub(crate) fn value_type(&mut self) -> ValueType
        ensures spelled { IsNone self.new.refused → SpellsType (lexed_of self.new) self.old.at self.new.at result }
        ensures grows { Grows self.old self.new }
    {
        if self.takes_word("Int") {
            return ValueType::Int;
        }
        if self.takes_word("Bool") {
            return ValueType::Bool;
        }
        if self.takes_word("Void") {
            return ValueType::Void;
        }
        if self.takes(Sign::Open) {
            self.sign(Sign::Close);
            return ValueType::Void;
        }
        match self.here().kind {
            TokenKind::Name => self.refuse(Rule::Outside, self.at),
            _ => self.unexpected(),
        }
        ValueType::Void
    }

    /// A type behind a colon, if there is one.
    pub(crate) fn annotation(&mut self) -> Option<ValueType>
        ensures spelled { IsNone self.new.refused → SpellsAnnotation (lexed_of self.new) self.old.at self.new.at result }
        ensures grows { Grows self.old self.new }
    {
        if self.takes(Sign::Colon) {
            Some(self.value_type())
        } else {
            None
        }
    }

    /// Wants what separates statements and declarations: `;`, a new line, or the end of the block.
    pub(crate) fn separator(&mut self)
        ensures spelled { IsNone self.new.refused → Separates (lexed_of self.new) self.old.at self.new.at }
        ensures grows { Grows self.old self.new }
    {
        if self.takes(Sign::Semicolon) {
            return;
        }
        let next = self.here();
        if next.begins_line || self.is_sign(Sign::CloseBrace) {
            return;
        }
        match next.kind {
            TokenKind::Sign(_) | TokenKind::Stray | TokenKind::Text | TokenKind::Interpolated => {
                self.unexpected();
            }
            _ => self.refuse(Rule::Separator, self.at),
        }
    }

    /// Puts an expression into its table. Its place.
    pub(crate) fn expr(&mut self, form: ExprForm, token: usize) -> usize
        ensures put { IsNone self.new.refused → IsPut self.old self.new form token result }
        ensures grows { Grows self.old self.new }
    {
        let place = self.tree.exprs.len();
        let grown = self.tree.exprs.push(Expr { form, token }).is_ok();
        self.note(grown);
        place
    }

    /// Puts an argument into its table. Its place, which is not 0: that stands for none.
    pub(crate) fn argument(&mut self, made: Argument) -> usize
        ensures put { IsNone self.new.refused → IsArgumentPut self.old self.new made result }
        ensures grows { Grows self.old self.new }
    {
        let place = self.tree.arguments.len();
        let grown = self.tree.arguments.push(made).is_ok();
        self.note(grown && place != 0);
        place
    }

    /// Puts what the place 0 of arguments stands for: none.
    pub(crate) fn no_argument(&mut self)
        ensures at { IsNone self.new.refused → self.new.at ≡ self.old.at }
        ensures grows { Grows self.old self.new }
    {
        let none = Argument {
            label: 0,
            value: 0,
            next: 0,
        };
        let grown = self.tree.arguments.push(none).is_ok();
        self.note(grown);
    }

    /// Puts a statement that ends here into its table. Its place.
    pub(crate) fn stmt(&mut self, form: StmtForm, token: usize) -> usize
        ensures put { IsNone self.new.refused → IsStmtPut self.old self.new (record { form = form; token = token; end = self.old.at; next = 0; is_awaited = false; is_tried = false }) result }
        ensures extends { Extends self.old self.new }
    {
        self.closed_stmt(form, token, false, false)
    }

    /// Puts a statement that ends here into its table, with `await` and `try` before its closure where the flags say so. Its place.
    pub(crate) fn closed_stmt(
        &mut self,
        form: StmtForm,
        token: usize,
        is_awaited: bool,
        is_tried: bool,
    ) -> usize
        ensures put { IsNone self.new.refused → IsStmtPut self.old self.new (record { form = form; token = token; end = self.old.at; next = 0; is_awaited = is_awaited; is_tried = is_tried }) result }
        ensures extends { Extends self.old self.new }
    {
        let place = self.tree.stmts.len();
        let end = self.at;
        let grown = self
            .tree
            .stmts
            .push(Stmt {
                form,
                token,
                end,
                next: 0,
                is_awaited,
                is_tried,
            })
            .is_ok();
        self.note(grown);
        place
    }

    /// Puts a statement after another one of its block.
    pub(crate) fn link(&mut self, last: usize, next: usize)
        ensures linked { IsLinked self.old self.new last next }
        ensures extends { Extends self.old self.new }
    {
        if let Some(before) = self.tree.stmts.get_mut(last) {
            before.next = next;
        }
    }
}
