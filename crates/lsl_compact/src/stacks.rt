//! A stack of kinds that can be noted as it is. A noted stack takes four bytes, since it shares what it begins with.

ghost use Rattle.std.specs.Prelude.{ℕ, ◌≡◌, ◌≤◌, ◌<◌, List, [], ◌∷◌, ◌++◌, Some, None, drop, length, replicate, reverse, slice_get, IfOk, MatchOption, OnErr, OnOk};
ghost use Rattle.lsl_value.specs.declared.tagged.Kind.{Kind as KindOf};
ghost use Rattle.lsl_compact.specs.Stacks.{AreLinks, noted_of, placing_of, stack_of};

use lsl_text::NoMemory;
use lsl_value::Kind;
use std::alloc::{AllocError, Global};
use std::marker::Model;

/// A kind on a stack, which is that of this number: 0 is the empty one, and each link has the next number.
#[derive(Clone, Copy)]
struct Link {
    below: u32,
    kind: Kind,
}

/// A stack of kinds, which contracts see with the top first, and the stacks that were noted, each from the first
/// pushed.
#[derive(Drop)]
pub struct KindStack {
    links: Vec<Link>,
    top: u32,
    height: usize,
    tops: Vec<u32>,
}

impl Model for KindStack {
    ghost use Rattle.std.specs.Prelude.{◌≡◌, ◌≤◌, length};
    ghost use Rattle.lsl_compact.specs.Stacks.{AreLinks, AreTops, Noted, listed, noted_of, stack_of};

    ghost Value = { Noted };

    ghost view = { λ s. noted_of (stack_of s.links.items s.top) (listed s.links.items s.tops.items) };

    ghost invariant = { λ s. AreLinks s.links.items × (s.top ≤ length s.links.items)
        × AreTops s.links.items s.tops.items × (s.height ≡ length (stack_of s.links.items s.top))
        × (s.height ≤ length s.links.items) };
}

impl KindStack {
    /// No kind, and no noted stack. Takes no memory.
    pub fn new(alloc: Global) -> KindStack
        ensures { result ≡ noted_of [] [] }
    {
        KindStack {
            links: Vec::new(alloc),
            top: 0,
            height: 0,
            tops: Vec::new(alloc),
        }
    }

    /// How many kinds there are.
    pub fn len(&self) -> usize
        ensures { result ≡ length self.now.kinds }
    {
        self.height
    }

    /// Adds a kind on the top. `NoMemory` also where 4,294,967,295 kinds were added.
    pub fn push(&mut self, kind: Kind) -> Result<(), NoMemory>
        ensures pushed { OnOk result (self.new ≡ noted_of (kind ∷ self.old.kinds) self.old.noted) }
        ensures unchanged { OnErr result (self.new ≡ self.old) }
    {
        let Ok(number) = u32::try_from(self.links.len() + 1) else {
            return Err(AllocError);
        };
        self.links.push(Link {
            below: self.top,
            kind,
        })?;
        self.top = number;
        self.height += 1;
        Ok(())
    }

    /// Takes off the top. Takes no memory.
    pub fn pop(&mut self) -> Option<Kind>
        ensures noted { self.new.noted ≡ self.old.noted }
        ensures kinds { MatchOption result ((self.old.kinds ≡ []) × (self.new.kinds ≡ []))
            (λ kind. self.old.kinds ≡ kind ∷ self.new.kinds) }
    {
        if self.top == 0 {
            return None;
        }
        let link = self.links[self.top as usize - 1];
        self.top = link.below;
        self.height -= 1;
        Some(link.kind)
    }

    /// Takes off `count` kinds. Takes no memory.
    pub fn pop_all(&mut self, count: usize)
        ensures { self.new ≡ noted_of (drop count self.old.kinds) self.old.noted }
    {
        self.top = lowered(self.links.as_slice(), self.top, count);
        self.height = self.height.saturating_sub(count);
    }

    /// Takes off every kind. Takes no memory.
    pub fn clear(&mut self)
        ensures { self.new ≡ noted_of [] self.old.noted }
    {
        self.top = 0;
        self.height = 0;
    }

    /// Notes the stack as it is.
    pub fn note(&mut self) -> Result<(), NoMemory>
        ensures noted { OnOk result
            (self.new ≡ noted_of self.old.kinds (self.old.noted ++ reverse self.old.kinds ∷ [])) }
        ensures unchanged { OnErr result (self.new ≡ self.old) }
    {
        self.tops.push(self.top)?;
        Ok(())
    }

    /// The kinds below the `count` topmost ones, from the first pushed.
    pub fn below(&self, alloc: Global, count: usize) -> Result<Vec<Kind>, NoMemory>
        ensures { IfOk result (λ kinds. kinds.items ≡ reverse (drop count self.now.kinds)) }
    {
        let links = self.links.as_slice();
        collected(alloc, links, lowered(links, self.top, count))
    }

    /// The noted stacks. Takes no memory.
    pub fn into_noted(self) -> KindStacks
        ensures { result ≡ self.noted }
    {
        let KindStack { links, tops, .. } = self;
        KindStacks { links, tops }
    }
}

/// Stacks of kinds, each from the first pushed.
#[derive(Drop)]
pub struct KindStacks {
    links: Vec<Link>,
    tops: Vec<u32>,
}

impl Model for KindStacks {
    ghost use Rattle.std.specs.Prelude.{List};
    ghost use Rattle.lsl_value.specs.declared.tagged.Kind.{Kind};
    ghost use Rattle.lsl_compact.specs.Stacks.{listed};

    ghost Value = { List (List Kind) };

    ghost view = { λ s. listed s.links.items s.tops.items };
}

impl KindStacks {
    /// How many stacks there are. Takes no memory.
    pub fn len(&self) -> usize
        ensures { result ≡ length self.now }
    {
        self.tops.len()
    }

    /// The stacks, to be placed anew. Takes no memory.
    pub fn into_placing(self, alloc: Global) -> Placing
        ensures { result ≡ placing_of self [] }
    {
        let KindStacks { links, tops } = self;
        Placing {
            links,
            given: tops,
            placed: Vec::new(alloc),
        }
    }
}

/// Stacks of kinds, and those of them that are placed, one or none after another.
#[derive(Drop)]
pub struct Placing {
    links: Vec<Link>,
    given: Vec<u32>,
    placed: Vec<Option<u32>>,
}

impl Model for Placing {
    ghost use Rattle.lsl_compact.specs.Stacks.{Placed, listed, placed_in, placing_of};

    ghost Value = { Placed };

    ghost view = { λ p. placing_of (listed p.links.items p.given.items) (placed_in p.links.items p.placed.items) };
}

impl Placing {
    /// Places the empty stack.
    pub fn place_empty(&mut self) -> Result<(), NoMemory>
        ensures placed { OnOk result (self.new ≡ placing_of self.old.given (self.old.placed ++ Some [] ∷ [])) }
        ensures unchanged { OnErr result (self.new ≡ self.old) }
    {
        self.placed.push(Some(0))?;
        Ok(())
    }

    /// Places the stack of this number, or none where there is no such stack.
    pub fn place(&mut self, number: usize) -> Result<(), NoMemory>
        ensures placed { OnOk result
            (self.new ≡ placing_of self.old.given (self.old.placed ++ slice_get self.old.given number ∷ [])) }
        ensures unchanged { OnErr result (self.new ≡ self.old) }
    {
        let top = top_at(self.given.as_slice(), number);
        self.placed.push(top)?;
        Ok(())
    }

    /// What is placed, and after it `nones` places without a stack. Takes no memory.
    pub fn finish(self, nones: usize) -> PlacedStacks
        ensures { result ≡ self.placed ++ replicate nones None }
    {
        let Placing { links, placed, .. } = self;
        PlacedStacks {
            links,
            placed,
            nones,
        }
    }
}

/// Stacks of kinds at places, each from the first pushed, and places without one.
#[derive(Drop)]
pub struct PlacedStacks {
    links: Vec<Link>,
    placed: Vec<Option<u32>>,
    nones: usize,
}

impl Model for PlacedStacks {
    ghost use Rattle.std.specs.Prelude.{List, None, Option, ◌++◌, replicate};
    ghost use Rattle.lsl_value.specs.declared.tagged.Kind.{Kind};
    ghost use Rattle.lsl_compact.specs.Stacks.{placed_in};

    ghost Value = { List (Option (List Kind)) };

    ghost view = { λ s. placed_in s.links.items s.placed.items ++ replicate s.nones None };
}

impl PlacedStacks {
    /// A count of places after which there is no stack. Takes no memory.
    pub fn reach(&self) -> usize
        ensures { (place : ℕ) (kinds : List KindOf) → slice_get self.now place ≡ Some (Some kinds) → place < result }
    {
        self.placed.len()
    }
}

// The top of this number, if there is one.
fn top_at(tops: &[u32], number: usize) -> Option<u32>
    ensures { result ≡ slice_get tops.now number }
{
    tops.get(number).copied()
}

// The top of the stack without its `count` topmost kinds.
fn lowered(links: &[Link], top: u32, count: usize) -> u32
    requires links { AreLinks links.now }
    requires top { top ≤ length links.now }
    ensures stack { stack_of links.now result ≡ drop count (stack_of links.now top) }
    ensures top { result ≤ length links.now }
{
    let mut top = top;
    for i in 0..count {
        top = below_top(links, top);
    }
    top
}

// The top of the stack without its topmost kind.
fn below_top(links: &[Link], top: u32) -> u32
    requires links { AreLinks links.now }
    requires top { top ≤ length links.now }
    ensures stack { stack_of links.now result ≡ drop 1 (stack_of links.now top) }
    ensures top { result ≤ length links.now }
{
    if top == 0 {
        return 0;
    }
    links[top as usize - 1].below
}

// The kinds of the stack with this top, from the first pushed.
fn collected(alloc: Global, links: &[Link], top: u32) -> Result<Vec<Kind>, NoMemory>
    requires links { AreLinks links.now }
    requires top { top ≤ length links.now }
    ensures { IfOk result (λ kinds. kinds.items ≡ reverse (stack_of links.now top)) }
{
    let mut kinds = Vec::new(alloc);
    let mut top = top;
    while top != 0 {
        let link = links[top as usize - 1];
        kinds.push(link.kind)?;
        top = link.below;
    }
    kinds.reverse();
    Ok(kinds)
}
