//! A lowering under way.

ghost use Rattle.std.specs.List.{slice_get};
ghost use Rattle.std.specs.Prelude.{◌≡◌, ◌++◌, ◌∷◌, [], IsTrue, IsNone, IsSome, length, ℕ, false, ◌↔◌};
ghost use Rattle.swift_expressions.specs.Instructions.{IsPlaced, IsVariableOf, KeepsRefusal, Puts, value_at};
ghost use Rattle.swift_expressions.specs.States.{Becomes, IsBegun, IsDeclared, argument_at, bytes_at, expr_at, fault_of, in_scope, named, next_value, next_variable, not_begun, put, returned_inside, setting_for, state_of, stmt_at, with_done, with_fallback, with_operand, with_temporary, with_value, with_variable};

use crate::code::{Code, Instruction, Kind, NONE, Operand, Unit, UnitKind, Value, Variable};
use crate::lines::{Lines, Spot};
use crate::scope::Binding;
use crate::typed::Typed;
use std::alloc::Global;
use swift_syntax::{Argument, Breach, Expr, ExprForm, Rule, Stmt, Token, TokenKind, Tree};

/// What stands for a value that does not come.
#[derive(Clone, Copy)]
pub enum Fallback {
    /// Nothing.
    None,
    /// A value, where what is awaited ends with a fault.
    Fault(usize),
    /// A value, where a group has no child left.
    Nil(usize),
}

/// Where a `return` goes.
#[derive(Clone, Copy)]
pub enum Returns {
    /// Out of the unit.
    Unit,
    /// Out of a closure that stands in the unit, to a variable; only from this many open blocks.
    Closure(usize, usize),
}

/// What holds of the place that is lowered.
#[derive(Clone, Copy)]
pub struct Setting {
    /// The unit.
    pub unit: usize,
    /// The actor whose fields stand here, or `NONE`.
    pub actor: usize,
    /// From which place on the scope is seen.
    pub boundary: usize,
    /// Whether the unit may wait.
    pub is_async: bool,
    /// Whether the unit may throw.
    pub is_throwing: bool,
    /// The token of the `do` that catches what is thrown here, or `NONE`.
    pub catching: usize,
    /// Whether it is a closure, or `main`.
    pub is_closure: bool,
    /// Whether it is an expectation: then it reads fields of instances as they are at the end.
    pub is_expectation: bool,
    /// Whether `await` covers what is lowered.
    pub is_awaited: bool,
    /// Whether `try` covers what is lowered.
    pub is_tried: bool,
    /// What stands for the value of the next wait.
    pub fallback: Fallback,
    /// What the unit gives; none where that is not known.
    pub result: Option<Kind>,
    /// Where a `return` goes.
    pub returns: Returns,
    /// Whether something that may throw was met, outside of what catches it.
    pub has_thrown: bool,
    /// From which place on the names in scope are those of the innermost block.
    pub block_start: usize,
    /// How many blocks are open.
    pub blocks: usize,
    /// How many loops of the unit are open.
    pub loops: usize,
    /// How many groups of `async let` are open in the unit.
    pub groups: usize,
}

// That there is no memory is no token's fault.
const NO_MEMORY: Breach = Breach {
    rule: Rule::Memory,
    token: 0,
};

/// What was lowered, and where.
#[derive(Drop)]
pub struct Lowering<'a> {
    /// The text of the file.
    pub text: &'a [u8],
    /// Its tokens.
    pub tokens: &'a [Token],
    /// Its tree. Behind a Box: the prover spells out what a reference leads to wherever a `Lowering` is touched, but not what is in a Box.
    pub tree: &'a Box<Tree>,
    /// The lines of the tokens.
    pub lines: Lines,
    /// What was lowered.
    pub code: Code,
    /// The names in scope, those of inner blocks last.
    pub scope: Vec<Binding>,
    /// What holds of the place that is lowered.
    pub setting: Setting,
    /// The first rule that is broken.
    pub refused: Option<Breach>,
}

/// The beginning of a unit that may not wait and not throw.
pub fn setting_of(unit: usize, actor: usize) -> Setting
    ensures { result ≡ setting_for unit actor }
{
    Setting {
        unit,
        actor,
        boundary: 0,
        is_async: false,
        is_throwing: false,
        catching: NONE,
        is_closure: false,
        is_expectation: false,
        is_awaited: false,
        is_tried: false,
        fallback: Fallback::None,
        result: None,
        returns: Returns::Unit,
        has_thrown: false,
        block_start: 0,
        blocks: 0,
        loops: 0,
        groups: 0,
    }
}

impl<'a> Lowering<'a> {
    /// Nothing of a file is lowered.
    pub fn new(
        alloc: Global,
        text: &'a [u8],
        tokens: &'a [Token],
        tree: &'a Box<Tree>,
    ) -> Lowering<'a>
        ensures state { state_of result ≡ not_begun text.now tokens.now tree.now.value }
    {
        let (lines, refused) = match Lines::of(alloc, text, tokens) {
            Ok(lines) => (lines, None),
            Err(_) => (Lines::new(alloc), Some(NO_MEMORY)),
        };
        Lowering {
            text,
            tokens,
            tree,
            lines,
            code: Code::new(alloc),
            scope: Vec::new(alloc),
            setting: setting_of(NONE, NONE),
            refused,
        }
    }

    /// Notes that a token breaks a rule, unless a refusal was noted before.
    pub fn refuse(&mut self, rule: Rule, place: usize)
        ensures code { self.new.code ≡ self.old.code }
        ensures scope { self.new.scope ≡ self.old.scope }
        ensures noted { IsSome self.new.refused }
        ensures state { Becomes self.new (state_of self.old) }
        ensures refused { KeepsRefusal self.old self.new }
    {
        if self.refused.is_none() {
            self.refused = Some(Breach { rule, token: place });
        }
    }

    /// Notes that a token breaks a rule, where it does.
    pub fn refuse_where(&mut self, is_broken: bool, rule: Rule, place: usize)
        ensures state { Becomes self.new (state_of self.old) }
        ensures refused { KeepsRefusal self.old self.new }
    {
        if is_broken {
            self.refuse(rule, place);
        }
    }

    /// Refuses what is thrown at a token where its unit may not throw. What a `do` catches is a wait of its own.
    pub fn refuse_thrown(&mut self, place: usize)
        ensures state { Becomes self.new (state_of self.old) }
        ensures refused { KeepsRefusal self.old self.new }
    {
        if self.setting.is_throwing {
            return;
        }
        if self.setting.catching == NONE {
            self.refuse(Rule::Try, place);
        } else {
            self.refuse(Rule::NotYet, self.setting.catching);
        }
    }

    fn note(&mut self, is_grown: bool)
        ensures code { self.new.code ≡ self.old.code }
        ensures scope { self.new.scope ≡ self.old.scope }
        ensures state { Becomes self.new (state_of self.old) }
        ensures refused { KeepsRefusal self.old self.new }
        ensures grown { IsNone self.new.refused → IsTrue is_grown }
    {
        if !is_grown {
            self.refuse(Rule::Memory, 0);
        }
    }

    /// The bytes of a token; none where there is no such token.
    pub fn bytes(&self, place: usize) -> &'a [u8]
        ensures { result.now ≡ bytes_at (state_of self.now) place }
    {
        match self.tokens.get(place) {
            Some(token) => self.text.get(token.from..token.to).unwrap_or(b""),
            None => b"",
        }
    }

    /// Whether a token has these bytes.
    pub fn spells(&self, place: usize, name: &str) -> bool
        ensures { IsTrue result ↔ (bytes_at (state_of self.now) place ≡ name.now) }
    {
        self.bytes(place) == name.as_bytes()
    }

    /// Whether two tokens have the same bytes.
    pub fn are_same(&self, left: usize, right: usize) -> bool
        ensures { IsTrue result ↔ (bytes_at (state_of self.now) left ≡ bytes_at (state_of self.now) right) }
    {
        self.bytes(left) == self.bytes(right)
    }

    /// The expression at a place of the tree; none where there is no such place.
    pub fn expr(&self, place: usize) -> Expr
        ensures { result ≡ expr_at (state_of self.now) place }
    {
        match self.tree.exprs.get(place) {
            Some(expr) => *expr,
            None => Expr {
                form: ExprForm::Missing,
                token: 0,
            },
        }
    }

    /// The argument at a place of the tree; there is none at 0.
    pub fn argument(&self, place: usize) -> Option<Argument>
        ensures { result ≡ argument_at (state_of self.now) place }
    {
        if place == 0 {
            return None;
        }
        self.tree.arguments.get(place).copied()
    }

    /// The statement at a place of the tree; there is none at 0.
    pub fn stmt(&self, place: usize) -> Option<Stmt>
        ensures { result ≡ stmt_at (state_of self.now) place }
    {
        if place == 0 {
            return None;
        }
        self.tree.stmts.get(place).copied()
    }

    /// Whether a token is a name.
    pub fn is_name(&self, place: usize) -> bool {
        match self.tokens.get(place) {
            Some(token) => matches!(token.kind, TokenKind::Name),
            None => false,
        }
    }

    /// Puts a value into its table. Its place.
    #[tactic(auto, using(std::proofs::lemmas::List::get_or_push))]
    pub fn value(&mut self, value: Value) -> usize
        ensures put { IsNone self.new.refused → IsPlaced self.old.code self.new.code value result }
        ensures instructions { self.new.code.instructions ≡ self.old.code.instructions }
        ensures scope { self.new.scope ≡ self.old.scope }
        ensures state { Becomes self.new (with_value value (state_of self.old)) }
        ensures place { result ≡ next_value (state_of self.old) }
        ensures refused { KeepsRefusal self.old self.new }
    {
        let place = self.code.values.len();
        let is_grown = self.code.values.push(value).is_ok();
        self.note(is_grown);
        place
    }

    /// The value at a place.
    pub fn value_at(&self, place: usize) -> Value
        ensures { result ≡ value_at self.now.code place }
    {
        match self.code.values.get(place) {
            Some(value) => *value,
            None => Value::Number(0),
        }
    }

    /// Puts a number into the table of values. Its place.
    pub fn number(&mut self, number: i64) -> usize
        ensures put { IsNone self.new.refused → IsPlaced self.old.code self.new.code (Value.Number number) result }
        ensures instructions { self.new.code.instructions ≡ self.old.code.instructions }
        ensures state { Becomes self.new (with_value (Value.Number number) (state_of self.old)) }
        ensures place { result ≡ next_value (state_of self.old) }
        ensures refused { KeepsRefusal self.old self.new }
    {
        self.value(Value::Number(number))
    }

    /// Takes what stands for the value of the next wait where that ends with a fault, or `NONE`.
    pub fn take_fault(&mut self) -> usize
        ensures code { self.new.code ≡ self.old.code }
        ensures state { Becomes self.new (with_fallback Fallback.None (state_of self.old)) }
        ensures fault { result ≡ fault_of self.old.setting.fallback }
        ensures refused { KeepsRefusal self.old self.new }
    {
        let found = self.setting.fallback;
        self.setting.fallback = Fallback::None;
        match found {
            Fallback::Fault(value) => value,
            Fallback::None => NONE,
            Fallback::Nil(_) => {
                self.refuse(Rule::NotYet, 0);
                NONE
            }
        }
    }

    /// Puts an instruction after the others.
    pub fn put(&mut self, instruction: Instruction)
        ensures put { Puts self.old self.new instruction }
        ensures values { self.new.code.values ≡ self.old.code.values }
        ensures state { Becomes self.new (put instruction (state_of self.old)) }
        ensures refused { KeepsRefusal self.old self.new }
    {
        let is_grown = self.code.instructions.push(instruction).is_ok();
        self.note(is_grown);
    }

    /// How many instructions there are.
    pub fn here(&self) -> usize
        ensures { result ≡ length self.now.code.instructions.items }
    {
        self.code.instructions.len()
    }

    /// The operand at a place.
    pub fn operand_at(&self, place: usize) -> Option<Operand>
        ensures { result ≡ slice_get self.now.code.operands.items place }
    {
        self.code.operands.get(place).copied()
    }

    /// Puts an operand into its table, and after another one where there is one. Its place.
    pub fn operand(&mut self, given: Typed, last: usize) -> usize
        ensures state { Becomes self.new (with_operand given last (state_of self.old)) }
        ensures place { result ≡ length self.old.code.operands.items }
        ensures refused { KeepsRefusal self.old self.new }
    {
        let place = self.code.operands.len();
        if let Some(before) = self.code.operands.get_mut(last) {
            before.next = place;
        }
        let Typed { value, kind } = given;
        let is_grown = self
            .code
            .operands
            .push(Operand {
                value,
                kind,
                next: NONE,
            })
            .is_ok();
        self.note(is_grown);
        place
    }

    // How many variables of the unit have the name of a token, and one more where a field of the actor has it.
    fn duplicates(&self, token: usize) -> usize {
        let unit = self.setting.unit;
        let mut many: usize = 0;
        for variable in self.code.variables.iter() {
            if variable.unit == unit
                && variable.token != 0
                && self.are_same(variable.token, token)
            {
                many = many.saturating_add(1);
            }
        }
        for field in self.tree.fields.iter() {
            if field.actor == self.setting.actor && self.are_same(field.name, token) {
                many = many.saturating_add(1);
            }
        }
        many
    }

    /// A variable of the unit, with the name of a token, or without one where that is 0. Its place.
    pub fn variable(&mut self, token: usize, is_param: bool) -> usize
        ensures made { IsNone self.new.refused → IsVariableOf self.new.code result self.old.setting.unit is_param }
        ensures declared { IsNone self.new.refused → IsDeclared (state_of self.old) token is_param (state_of self.new) }
        ensures place { result ≡ next_variable (state_of self.old) }
        ensures instructions { self.new.code.instructions ≡ self.old.code.instructions }
        ensures values { self.new.code.values ≡ self.old.code.values }
        ensures scope { self.new.scope ≡ self.old.scope }
        ensures refused { KeepsRefusal self.old self.new }
    {
        let duplicate = if token == 0 {
            0
        } else {
            self.duplicates(token)
        };
        let unit = self.setting.unit;
        self.add_variable(Variable {
            unit,
            token,
            duplicate,
            is_param,
        })
    }

    // Puts a variable into its table. Its place.
    #[tactic(auto, using(std::proofs::lemmas::List::get_or_push))]
    fn add_variable(&mut self, variable: Variable) -> usize
        ensures made { IsNone self.new.refused → slice_get self.new.code.variables.items result ≡ Some variable }
        ensures instructions { self.new.code.instructions ≡ self.old.code.instructions }
        ensures values { self.new.code.values ≡ self.old.code.values }
        ensures scope { self.new.scope ≡ self.old.scope }
        ensures state { Becomes self.new (with_variable variable (state_of self.old)) }
        ensures place { result ≡ next_variable (state_of self.old) }
        ensures refused { KeepsRefusal self.old self.new }
    {
        let place = self.code.variables.len();
        let is_grown = self.code.variables.push(variable).is_ok();
        self.note(is_grown);
        place
    }

    /// A variable without a name.
    pub fn temporary(&mut self) -> usize
        ensures instructions { self.new.code.instructions ≡ self.old.code.instructions }
        ensures values { self.new.code.values ≡ self.old.code.values }
        ensures state { Becomes self.new (with_temporary (state_of self.old)) }
        ensures place { result ≡ next_variable (state_of self.old) }
        ensures refused { KeepsRefusal self.old self.new }
    {
        let unit = self.setting.unit;
        self.add_variable(Variable {
            unit,
            token: 0,
            duplicate: 0,
            is_param: false,
        })
    }

    /// Puts a variable into scope.
    pub fn bind(&mut self, binding: Binding)
        ensures bound { IsNone self.new.refused → self.new.scope.items ≡ self.old.scope.items ++ binding ∷ [] }
        ensures code { self.new.code ≡ self.old.code }
        ensures state { Becomes self.new (in_scope binding (state_of self.old)) }
        ensures refused { KeepsRefusal self.old self.new }
    {
        let is_grown = self.scope.push(binding).is_ok();
        self.note(is_grown);
    }

    /// Notes where the next value stands that `main` prints by the `print` at a token. Its place among them.
    pub fn print_at(&mut self, token: usize) -> usize
        ensures state { Becomes self.new (state_of self.old) }
        ensures refused { KeepsRefusal self.old self.new }
    {
        let place = self.code.printed.len();
        let spot = self.lines.printed(token);
        let is_grown = self.code.printed.push(spot).is_ok();
        self.note(is_grown);
        place
    }

    // Where a unit stands that begins at a token.
    fn spot(&mut self, kind: UnitKind, token: usize) -> Spot
        ensures state { Becomes self.new (state_of self.old) }
        ensures refused { KeepsRefusal self.old self.new }
    {
        match kind {
            UnitKind::Closure => self.lines.closure(token),
            UnitKind::Method(_) | UnitKind::Main => Spot {
                line: self.lines.line(token),
                before: 0,
            },
        }
    }

    /// A unit of the method with the name of a token, put into its table. Its place.
    pub fn unit(&mut self, kind: UnitKind, actor: usize, method: usize, token: usize) -> usize
        ensures begun { IsNone self.new.refused → IsBegun (state_of self.old) kind actor method token (state_of self.new) }
        ensures place { result ≡ length self.old.code.units.items }
        ensures refused { KeepsRefusal self.old self.new }
    {
        let place = self.code.units.len();
        let spot = self.spot(kind, token);
        let is_grown = self
            .code
            .units
            .push(Unit {
                kind,
                actor,
                from: 0,
                to: 0,
                needs_done: false,
                returns_inside: false,
                token,
                end: token,
                method,
                spot,
            })
            .is_ok();
        self.note(is_grown);
        place
    }

    /// Gives a variable without a name the name of a token. Whether it had none.
    pub fn name_variable(&mut self, place: usize, token: usize) -> bool
        ensures named { IsTrue result → IsNone self.new.refused → (duplicate : ℕ) × (state_of self.new ≡ named place token duplicate (state_of self.old)) }
        ensures other { result ≡ false → Becomes self.new (state_of self.old) }
        ensures refused { KeepsRefusal self.old self.new }
    {
        let duplicate = self.duplicates(token);
        let unit = self.setting.unit;
        match self.code.variables.get_mut(place) {
            Some(variable) => {
                if variable.token != 0 || variable.unit != unit {
                    return false;
                }
                variable.token = token;
                variable.duplicate = duplicate;
                true
            }
            None => false,
        }
    }

    /// Notes that something of the unit may follow a `return`.
    pub fn need_done(&mut self)
        ensures state { Becomes self.new (with_done (state_of self.old)) }
        ensures refused { KeepsRefusal self.old self.new }
    {
        if let Some(unit) = self.code.units.get_mut(self.setting.unit) {
            unit.needs_done = true;
        }
    }

    /// Notes that a `return` of the unit stands in a group's block.
    pub fn return_inside(&mut self)
        ensures state { Becomes self.new (returned_inside (state_of self.old)) }
        ensures refused { KeepsRefusal self.old self.new }
    {
        if let Some(unit) = self.code.units.get_mut(self.setting.unit) {
            unit.returns_inside = true;
        }
    }
}
