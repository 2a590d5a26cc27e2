//! The text of tokens, and the comments between them.

ghost use Rattle.std.specs.Prelude.{◌≡◌, ◌⊎◌, ◌∷◌, ◌++◌, [], true, List, IfOk, OnOk};
ghost use Rattle.script_tokens.specs.declared.mark.Mark.TheVariants.{Open, Close};
ghost use Rattle.script_tokens.specs.declared.token.Token.{Token};
ghost use Rattle.script_tokens.specs.declared.token.Token.TheVariants.{Sign};
ghost use Rattle.nuchapay_tool.specs.LayoutsInside.{HasNoFeed, LaysOut, comment_line, token_text};

use crate::layout::comment::{Comment, between, feeds_in, next_comment};
use crate::layout::gap::{Gap, gap_after_comment, gap_before, gap_before_comment, is_inside};
use crate::layout::needless::needless;
use crate::layout::part::{LayoutPart, part_at};
use script_tokens::{Mark, Span, Token};
use std::alloc::{AllocError, Global};

// In how many blocks a token is, by that of the token before it.
fn depth_before(part: LayoutPart, depth: usize) -> usize {
    match part {
        LayoutPart::CloseBrace => depth.saturating_sub(1),
        _ => depth,
    }
}

// In how many blocks what follows a token is.
fn depth_after(part: LayoutPart, depth: usize) -> usize {
    match part {
        LayoutPart::OpenBrace => depth.saturating_add(1),
        _ => depth,
    }
}

// A text that is written.
#[derive(Drop)]
struct WrittenLayout {
    text: Vec<u8>,
    // In how many blocks what comes next is.
    depth: usize,
    // The token that was written last.
    last: LayoutPart,
    // Whether a comment was written after it, and its line has ended.
    has_comment: bool,
}

impl WrittenLayout {
    // Indents a line: what goes on with a statement of the line before stands further in.
    fn indent(&mut self) -> Result<(), AllocError>
        ensures { (ts : List Token) → LaysOut ts self.old.text.items → OnOk result (LaysOut ts self.new.text.items) }
    {
        let further = usize::from(self.has_comment && is_inside(self.last));
        for _ in 0..self.depth.saturating_add(further) {
            self.text.extend_from_slice(b"    ")?;
        }
        Ok(())
    }

    // Ends the last line, unless a comment has.
    fn end_line(&mut self) -> Result<(), AllocError>
        ensures { (ts : List Token) → LaysOut ts self.old.text.items → OnOk result (LaysOut ts self.new.text.items) }
    {
        if self.has_comment {
            return Ok(());
        }
        self.text.push(b'\n')?;
        Ok(())
    }

    // Begins a line.
    fn line(&mut self) -> Result<(), AllocError>
        ensures { (ts : List Token) → LaysOut ts self.old.text.items → OnOk result (LaysOut ts self.new.text.items) }
    {
        self.end_line()?;
        self.indent()
    }

    fn space(&mut self, gap: Gap) -> Result<(), AllocError>
        ensures { (ts : List Token) → LaysOut ts self.old.text.items → OnOk result (LaysOut ts self.new.text.items) }
    {
        match gap {
            Gap::Nothing => Ok(()),
            Gap::Space => {
                self.text.push(b' ')?;
                Ok(())
            }
            Gap::Line => self.line(),
            Gap::EmptyLine => {
                self.end_line()?;
                self.text.push(b'\n')?;
                self.indent()
            }
        }
    }

    // Puts what comes before a token after the others, where so many line feeds stand after the last comment.
    fn begin(&mut self, part: LayoutPart, feeds: usize) -> Result<(), AllocError>
        ensures { (ts : List Token) → LaysOut ts self.old.text.items → OnOk result (LaysOut ts self.new.text.items) }
    {
        self.depth = depth_before(part, self.depth);
        if self.text.is_empty() {
            return Ok(());
        }
        if self.has_comment {
            self.space(gap_after_comment(part, feeds))
        } else {
            self.space(gap_before(self.last, part, self.depth))
        }
    }

    // Puts what comes before a comment after the others: it stands before a token that is `part`, after so many line feeds.
    fn begin_comment(&mut self, part: LayoutPart, feeds: usize) -> Result<(), AllocError>
        ensures { (ts : List Token) → LaysOut ts self.old.text.items → OnOk result (LaysOut ts self.new.text.items) }
    {
        if self.text.is_empty() {
            return Ok(());
        }
        let plain = gap_before(self.last, part, self.depth);
        self.space(gap_before_comment(self.has_comment, plain, feeds))
    }

    // Puts a comment and a line feed after the others, before a token that is `part`.
    fn comment(&mut self, comment: Comment<'_>, part: LayoutPart) -> Result<(), AllocError>
        requires { HasNoFeed comment.text.now }
        ensures { (ts : List Token) → LaysOut ts self.old.text.items → OnOk result (LaysOut ts self.new.text.items) }
    {
        self.begin_comment(part, comment.feeds)?;
        self.line_of_comment(comment.text)?;
        self.has_comment = true;
        Ok(())
    }

    // Puts two slashes, the text of a comment and a line feed after the others.
    fn line_of_comment(&mut self, comment: &[u8]) -> Result<(), AllocError>
        ensures { OnOk result (self.new.text.items ≡ self.old.text.items ++ comment_line comment.now) }
    {
        self.text.extend_from_slice(b"//")?;
        self.text.extend_from_slice(comment)?;
        self.text.push(b'\n')?;
        Ok(())
    }

    // Puts the comments before a token that is `part` after the others. How many line feeds stand after the last of them.
    fn comments(&mut self, gap: &[u8], part: LayoutPart) -> Result<usize, AllocError>
        ensures { (ts : List Token) → LaysOut ts self.old.text.items → OnOk result (LaysOut ts self.new.text.items) }
    {
        let mut rest = gap;
        'comments: while let Some((comment, after)) = next_comment(rest) {
            self.comment(comment, part)?;
            rest = after;
        }
        Ok(feeds_in(rest))
    }

    // Puts a token after the others, where so many line feeds stand after the last comment.
    fn token(
        &mut self,
        alloc: Global,
        part: LayoutPart,
        token: &Token,
        feeds: usize,
    ) -> Result<(), AllocError>
        ensures { (ts : List Token) → LaysOut ts self.old.text.items → OnOk result (LaysOut (ts ++ token.now ∷ []) self.new.text.items) }
    {
        self.begin(part, feeds)?;
        self.word(alloc, token)?;
        self.depth = depth_after(part, self.depth);
        self.last = part;
        self.has_comment = false;
        Ok(())
    }

    // Puts a token after the others, unless it is a parenthesis that is needless.
    fn token_unless(
        &mut self,
        alloc: Global,
        is_needless: bool,
        part: LayoutPart,
        token: &Token,
        feeds: usize,
    ) -> Result<(), AllocError>
        ensures { (ts : List Token) → LaysOut ts self.old.text.items → OnOk result (LaysOut (ts ++ token.now ∷ []) self.new.text.items) }
    {
        if is_left_out(is_needless, token) {
            return Ok(());
        }
        self.token(alloc, part, token, feeds)
    }

    // Ends the last line, if there is one.
    fn end(&mut self) -> Result<(), AllocError>
        ensures { (ts : List Token) → LaysOut ts self.old.text.items → OnOk result (LaysOut ts self.new.text.items) }
    {
        if self.text.is_empty() {
            return Ok(());
        }
        self.end_line()
    }

    // Puts the bytes of a token after the others.
    fn word(&mut self, alloc: Global, token: &Token) -> Result<(), AllocError>
        ensures { OnOk result (self.new.text.items ≡ self.old.text.items ++ token_text token.now) }
    {
        match token {
            Token::Num(number) => {
                let digits = number.to_string(alloc)?;
                self.text.extend_from_slice(digits.as_bytes())
            }
            Token::Name(name) => self.text.extend_from_slice(name),
            Token::Key(keyword) => self.text.extend_from_slice(keyword.spelling()),
            Token::Sign(mark) => self.text.extend_from_slice(mark.spelling()),
            Token::Huge | Token::Stray => Ok(()),
        }
    }
}

// Whether a token is a parenthesis.
fn is_parenthesis(token: &Token) -> bool
    ensures { result ≡ true → (token.now ≡ Sign Open) ⊎ (token.now ≡ Sign Close) }
{
    matches!(token, Token::Sign(Mark::Open | Mark::Close))
}

// Whether a token is left out: a parenthesis that is needless.
fn is_left_out(is_needless: bool, token: &Token) -> bool
    ensures { result ≡ true → (token.now ≡ Sign Open) ⊎ (token.now ≡ Sign Close) }
{
    if is_needless {
        is_parenthesis(token)
    } else {
        false
    }
}

/// The tokens of a script as a person would lay them out (our own): four spaces of indentation for each block, one statement on a line, an
/// empty line round actors and between methods, and no parenthesis without which the same is read. Comments stand where they stood: behind
/// a token on its line, or on lines of their own, with an empty line before them where there was one. The text has each token's bytes, in
/// order, but for such parentheses. That it spells the same script is not said here: who prints it has to read it again. Linear in the
/// text.
///
/// # Errors
///
/// `AllocError` where there is no memory for the text.
pub(crate) fn layout(
    alloc: Global,
    text: &[u8],
    tokens: &[Token],
    spans: &[Span],
) -> Result<Vec<u8>, AllocError>
    ensures { IfOk result (λ laid. LaysOut tokens.now laid.items) }
{
    let needless = needless(alloc, tokens)?;
    let mut written = WrittenLayout {
        text: Vec::new(alloc),
        depth: 0,
        last: LayoutPart::Semicolon,
        has_comment: false,
    };
    for (place, token) in tokens.iter().enumerate() {
        let is_needless = needless.get(place).copied().unwrap_or(false);
        let part = part_at(tokens, place);
        let feeds = written.comments(between(text, spans, place), part)?;
        written.token_unless(alloc, is_needless, part, token, feeds)?;
    }
    let last = between(text, spans, tokens.len());
    written.comments(last, LayoutPart::Word)?;
    written.end()?;
    Ok(written.text)
}
