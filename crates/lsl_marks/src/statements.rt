//! The routines and statements of an accepted script, found among its tokens in one pass.

use crate::tokens::{Part, close_of, kind_at, semicolon_from, sort_at};
use lsl_lex::{Sort, Token};
use lsl_text::NoMemory;
use lsl_value::Kind;
use std::alloc::Global;

/// What a statement is.
#[derive(Clone, Copy, Debug, PartialEq, Eq)]
pub enum Form {
    Block,
    Declare,
    Label,
    Value,
    If,
    While,
    Do,
    For,
    Jump,
    Return,
    /// An empty statement, or a change of state.
    Other,
}

impl Form {
    /// Whether its body is begun again and again.
    pub fn is_loop(&self) -> bool {
        matches!(self, Form::While | Form::Do | Form::For)
    }
}

/// A statement: its first token and the one after its last, and the tokens of its own values.
#[derive(Clone, Copy, Debug)]
pub struct Statement {
    pub form: Form,
    pub first: usize,
    pub end: usize,
    pub values: Part,
    /// Whether it is the body of the statement around it.
    pub is_body: bool,
}

/// A function or a handler: its name, its state's, the kind of its result, its parameters, and the brace that opens its
/// body.
#[derive(Clone, Copy, Debug)]
pub struct Routine {
    pub name: usize,
    pub state: Option<usize>,
    pub kind: Option<Kind>,
    pub parameters: Part,
    pub body: usize,
}

/// A variable's name, and its kind.
#[derive(Clone, Copy, Debug)]
pub struct Declared {
    pub name: usize,
    pub kind: Kind,
}

/// What comes next in the text: a routine, a statement, or the brace that ends a routine. Routines and statements are
/// numbered from 0.
#[derive(Clone, Copy, Debug)]
pub enum Event {
    Enter(usize),
    Begin(usize),
    End(usize),
    Leave(usize),
}

/// The parts of a script, in the order of its text.
#[derive(Drop)]
pub struct Outline {
    pub globals: Vec<Declared>,
    pub routines: Vec<Routine>,
    pub statements: Vec<Statement>,
    pub events: Vec<Event>,
}

impl Outline {
    /// Finds the parts of a script of these tokens.
    pub fn find(alloc: Global, tokens: &[Token]) -> Result<Outline, NoMemory> {
        let mut finder = Finder {
            tokens,
            outline: Outline::new(alloc),
            open: Vec::new(alloc),
            next: 0,
        };
        for at in 0..tokens.len() {
            if finder.next <= at {
                finder.step(at)?;
            }
        }
        Ok(finder.outline)
    }

    fn new(alloc: Global) -> Outline {
        Outline {
            globals: Vec::new(alloc),
            routines: Vec::new(alloc),
            statements: Vec::new(alloc),
            events: Vec::new(alloc),
        }
    }
}

/// What isn't closed yet. A number is that of a statement.
#[derive(Clone, Copy, Debug)]
enum Open {
    State(usize),
    Routine,
    Block(usize),
    /// The body of an `if`, which may have an `else`.
    Then(usize),
    /// The body after an `else`, of a `while` or of a `for`.
    Body(usize),
    /// The body of a `do`.
    Do(usize),
    /// The `while` of a `do` comes.
    Until(usize),
}

/// The next token that is looked at is the first from `next` on.
#[derive(Drop)]
struct Finder<'a> {
    tokens: &'a [Token],
    outline: Outline,
    open: Vec<Open>,
    next: usize,
}

impl Finder<'_> {
    fn step(&mut self, at: usize) -> Result<(), NoMemory> {
        let closes = matches!(sort_at(self.tokens, at), Some(Sort::BraceClose));
        match self.open.last().copied() {
            None => self.declaration(at),
            Some(Open::State(_)) if closes => {
                self.pop();
                Ok(())
            }
            Some(Open::State(name)) => self.routine(at, Some(name), None),
            Some(Open::Routine) if closes => {
                self.pop();
                self.outline.events.push(Event::Leave(at))?;
                Ok(())
            }
            Some(Open::Block(number)) if closes => {
                self.pop();
                self.complete(number, at.saturating_add(1))
            }
            Some(Open::Until(number)) => self.until(at, number),
            Some(_) => self.statement(at),
        }
    }

    fn pop(&mut self) {
        let _ = self.open.pop();
    }

    /// A state, a function or a global.
    fn declaration(&mut self, at: usize) -> Result<(), NoMemory> {
        if matches!(sort_at(self.tokens, at), Some(Sort::DefaultWord)) {
            return self.state(at);
        }
        if matches!(sort_at(self.tokens, at), Some(Sort::StateWord)) {
            return self.state(at.saturating_add(1));
        }
        let Some(kind) = kind_at(self.tokens, at) else {
            return self.routine(at, None, None);
        };
        let name = at.saturating_add(1);
        if matches!(
            sort_at(self.tokens, at.saturating_add(2)),
            Some(Sort::ParenOpen)
        ) {
            return self.routine(name, None, Some(kind));
        }
        self.outline.globals.push(Declared { name, kind })?;
        self.next = semicolon_from(self.tokens, at).saturating_add(1);
        Ok(())
    }

    fn state(&mut self, name: usize) -> Result<(), NoMemory> {
        self.open.push(Open::State(name))?;
        self.next = name.saturating_add(2);
        Ok(())
    }

    fn routine(
        &mut self,
        name: usize,
        state: Option<usize>,
        kind: Option<Kind>,
    ) -> Result<(), NoMemory> {
        let close = close_of(self.tokens, name.saturating_add(1));
        let parameters = Part {
            from: name.saturating_add(2),
            to: close,
        };
        let body = close.saturating_add(1);
        let number = self.outline.routines.len();
        self.outline.events.push(Event::Enter(number))?;
        self.outline.routines.push(Routine {
            name,
            state,
            kind,
            parameters,
            body,
        })?;
        self.open.push(Open::Routine)?;
        self.next = body.saturating_add(1);
        Ok(())
    }

    fn statement(&mut self, at: usize) -> Result<(), NoMemory> {
        let form = self.form_at(at);
        let values = self.values_of(form, at);
        let number = self.begin(form, at, values)?;
        match form {
            Form::Block => self.go_into(Open::Block(number), at),
            Form::If => self.go_into(Open::Then(number), values.to),
            Form::While | Form::For => self.go_into(Open::Body(number), values.to),
            Form::Do => self.go_into(Open::Do(number), at),
            _ => self.complete(number, values.to.saturating_add(1)),
        }
    }

    /// What is inside comes after the token at this place.
    fn go_into(&mut self, open: Open, last: usize) -> Result<(), NoMemory> {
        self.open.push(open)?;
        self.next = last.saturating_add(1);
        Ok(())
    }

    fn form_at(&self, at: usize) -> Form {
        match sort_at(self.tokens, at) {
            Some(Sort::BraceOpen) => Form::Block,
            Some(Sort::IntegerWord | Sort::StringWord | Sort::KeyWord | Sort::ListWord) =>
                Form::Declare,
            Some(Sort::At) => Form::Label,
            Some(Sort::IfWord) => Form::If,
            Some(Sort::WhileWord) => Form::While,
            Some(Sort::DoWord) => Form::Do,
            Some(Sort::ForWord) => Form::For,
            Some(Sort::JumpWord) => Form::Jump,
            Some(Sort::ReturnWord) => Form::Return,
            Some(Sort::StateWord | Sort::Semicolon) => Form::Other,
            _ => Form::Value,
        }
    }

    /// The tokens of the values of a statement at this place, up to the parenthesis or the semicolon that ends them.
    fn values_of(&self, form: Form, at: usize) -> Part {
        match form {
            Form::Block | Form::Do => Part { from: at, to: at },
            Form::If | Form::While | Form::For => self.in_parentheses(at.saturating_add(1)),
            Form::Declare => self.to_semicolon(at.saturating_add(3), at),
            Form::Return => self.to_semicolon(at.saturating_add(1), at),
            _ => self.to_semicolon(at, at),
        }
    }

    fn in_parentheses(&self, open: usize) -> Part {
        Part {
            from: open.saturating_add(1),
            to: close_of(self.tokens, open),
        }
    }

    fn to_semicolon(&self, from: usize, at: usize) -> Part {
        Part {
            from,
            to: semicolon_from(self.tokens, at),
        }
    }

    fn begin(&mut self, form: Form, first: usize, values: Part) -> Result<usize, NoMemory> {
        let number = self.outline.statements.len();
        let is_body = matches!(
            self.open.last(),
            Some(Open::Then(_) | Open::Body(_) | Open::Do(_))
        );
        self.outline.statements.push(Statement {
            form,
            first,
            end: first,
            values,
            is_body,
        })?;
        self.outline.events.push(Event::Begin(number))?;
        Ok(number)
    }

    /// The `while` of a `do`, its condition and its semicolon.
    fn until(&mut self, at: usize, number: usize) -> Result<(), NoMemory> {
        let values = self.in_parentheses(at.saturating_add(1));
        if let Some(statement) = self.outline.statements.get_mut(number) {
            statement.values = values;
        }
        self.pop();
        self.complete(number, values.to.saturating_add(2))
    }

    /// Ends a statement before the token at `end`, and those around it that end with it.
    fn complete(&mut self, number: usize, end: usize) -> Result<(), NoMemory> {
        self.next = end;
        self.end(number, end)?;
        for _ in 0..self.open.len() {
            match self.ended_around(end) {
                Some(around) => self.end(around, end)?,
                None => return Ok(()),
            }
        }
        Ok(())
    }

    fn end(&mut self, number: usize, end: usize) -> Result<(), NoMemory> {
        if let Some(statement) = self.outline.statements.get_mut(number) {
            statement.end = end;
        }
        self.outline.events.push(Event::End(number))?;
        Ok(())
    }

    /// The statement that ends with its body, if it does.
    fn ended_around(&mut self, end: usize) -> Option<usize> {
        let has_else = matches!(sort_at(self.tokens, end), Some(Sort::ElseWord));
        match self.open.last().copied()? {
            Open::Then(number) if has_else => {
                self.next = end.saturating_add(1);
                self.turn(Open::Body(number))
            }
            Open::Then(number) | Open::Body(number) => {
                let _ = self.open.pop();
                Some(number)
            }
            Open::Do(number) => self.turn(Open::Until(number)),
            _ => None,
        }
    }

    fn turn(&mut self, open: Open) -> Option<usize> {
        if let Some(last) = self.open.last_mut() {
            *last = open;
        }
        None
    }
}
