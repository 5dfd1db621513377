//! What was read so far, and what a line adds to it.

use crate::additions::{add_file, add_key, fault_unless, new_prim};
use crate::faults::FileKind;
use crate::fields::Field;
use crate::file::{NoteLine, ObjectLine, ScriptLine, Step};
use crate::forms::{Line, parse_line};
use crate::keys::Keys;
use crate::lasts::{add_last_prim, add_last_script};
use crate::words::{Word, is_skipped};
use lsl_code::Sequence;
use lsl_value::Text;
use std::alloc::{AllocError, Global};

/// How many objects, scripts, notecards and steps there are at most.
const MAX_OBJECTS: usize = 64;

const MAX_SCRIPTS: u32 = 256;

const MAX_NOTES: usize = 256;

const MAX_STEPS: usize = 100_000;

/// The part of the file that a line is in.
#[derive(Clone, Copy, PartialEq, Eq)]
pub enum Part {
    Objects,
    Steps,
    Ended,
}

impl Part {
    ghost use Rattle.std.specs.Prelude.{◌≡◌};
    ghost use Rattle.lsl_lines.specs.Reading.{is_objects, is_steps};

    fn is_objects(self) -> bool
        ensures { result ≡ is_objects self }
    {
        match self {
            Part::Objects => true,
            Part::Steps | Part::Ended => false,
        }
    }

    fn is_steps(self) -> bool
        ensures { result ≡ is_steps self }
    {
        match self {
            Part::Steps => true,
            Part::Objects | Part::Ended => false,
        }
    }
}

/// What was read so far.
#[derive(Drop)]
pub struct Reading {
    pub part: Part,
    pub objects: Sequence<ObjectLine>,
    /// How many scripts there are.
    pub scripts: u32,
    pub files: Sequence<Text>,
    pub cards: Sequence<Text>,
    pub notes: Sequence<NoteLine>,
    /// Of objects and prims: one for each prim.
    pub keys: Keys,
    pub steps: Sequence<Step>,
    /// The last clock.
    pub clock: u64,
}

impl Reading {
    ghost use Rattle.std.specs.Prelude.{◌≡◌, ◌++◌, ◌∷◌, []};
    ghost use Rattle.lsl_lines.specs.Reading.{begun, clock_behind, object_added, prim_added, script_added, note_added, step_added, line_added, read_line};
    ghost use Rattle.lsl_lines.specs.Reads.{Makes};

    /// Nothing yet. Takes no memory.
    pub fn new(alloc: Global) -> Reading
        ensures { result ≡ begun }
    {
        Reading {
            part: Part::Objects,
            objects: Sequence::new(alloc),
            scripts: 0,
            files: Sequence::new(alloc),
            cards: Sequence::new(alloc),
            notes: Sequence::new(alloc),
            keys: Keys::new(alloc),
            steps: Sequence::new(alloc),
            clock: 0,
        }
    }

    /// Reads a line. Its words replace those of the last line. After a refusal the value must be dropped.
    #[tactic(auto, unfolding(crate::specs::Reading::read_line))]
    pub fn read_line<'a>(
        &mut self,
        alloc: Global,
        line: &'a [u8],
        words: &mut Vec<Word<'a>>,
    ) -> Field<()>
        ensures { Makes result self.new (read_line line.now self.old) }
    {
        if is_skipped(line) {
            return Ok(());
        }
        let line = parse_line(alloc, line, words)?;
        self.add_line(alloc, line)
    }

    fn add_line(&mut self, alloc: Global, line: Line) -> Field<()>
        ensures { Makes result self.new (line_added line self.old) }
    {
        match line {
            Line::Object(key, name, owner, region) => self.add_object(
                alloc, key, name, owner, region,
            ),
            Line::Prim(key, name) => self.add_prim(alloc, key, name),
            Line::Script(name, file) => self.add_script(name, file),
            Line::Note(name, file) => self.add_note(name, file),
            Line::Begin => self.begin(),
            Line::Step(step) => self.add_step(step),
            Line::End => self.end(),
        }
    }

    fn begin(&mut self) -> Field<()>
        ensures { Makes result self.new (line_added Line.Begin self.old) }
    {
        fault_unless(self.part.is_objects(), FileKind::BadLine)?;
        self.part = Part::Steps;
        Ok(())
    }

    fn end(&mut self) -> Field<()>
        ensures { Makes result self.new (line_added Line.End self.old) }
    {
        fault_unless(self.part.is_steps(), FileKind::BadLine)?;
        self.part = Part::Ended;
        Ok(())
    }

    fn add_object(
        &mut self,
        alloc: Global,
        key: Text,
        name: Text,
        owner: Text,
        region: Text,
    ) -> Field<()>
        ensures { Makes result self.new (object_added key name owner region self.old) }
    {
        fault_unless(self.part.is_objects(), FileKind::BadLine)?;
        fault_unless(self.objects.len() < MAX_OBJECTS, FileKind::TooMany)?;
        add_key(alloc, &mut self.keys, &key)?;
        let mut prims = Sequence::new(alloc);
        prims.push(new_prim(alloc, key, name))?;
        self.objects.push(ObjectLine {
            owner,
            region,
            prims,
        })?;
        Ok(())
    }

    fn add_prim(&mut self, alloc: Global, key: Text, name: Text) -> Field<()>
        ensures { Makes result self.new (prim_added key name self.old) }
    {
        fault_unless(self.part.is_objects(), FileKind::BadLine)?;
        add_last_prim(&mut self.objects, new_prim(alloc, key.copy()?, name))?;
        add_key(alloc, &mut self.keys, &key)?;
        Ok(())
    }

    fn add_script(&mut self, name: Text, file: Text) -> Field<()>
        ensures { Makes result self.new (script_added name file self.old) }
    {
        fault_unless(
            self.part.is_objects() && !self.objects.is_empty(),
            FileKind::BadLine,
        )?;
        fault_unless(self.scripts < MAX_SCRIPTS, FileKind::TooMany)?;
        let file = add_file(&mut self.files, file)?;
        add_last_script(&mut self.objects, ScriptLine { name, file })?;
        self.scripts += 1;
        Ok(())
    }

    fn add_note(&mut self, name: Text, file: Text) -> Field<()>
        ensures { Makes result self.new (note_added name file self.old) }
    {
        fault_unless(
            self.part.is_objects() && !self.objects.is_empty(),
            FileKind::BadLine,
        )?;
        fault_unless(self.notes.len() < MAX_NOTES, FileKind::TooMany)?;
        let prim = u32::try_from(self.keys.len()).map_err(|_| AllocError)?;
        let file = add_file(&mut self.cards, file)?;
        self.notes.push(NoteLine { prim, name, file })?;
        Ok(())
    }

    fn add_step(&mut self, step: Step) -> Field<()>
        ensures { Makes result self.new (step_added step self.old) }
    {
        self.admits(&step)?;
        self.clock = self.clock_behind(&step);
        self.steps.push(step)?;
        Ok(())
    }

    // Whether the step can be added, or the fault that it has.
    fn admits(&self, step: &Step) -> Field<()>
        ensures { Makes result
            (record self.now {
              steps = self.now.steps ++ step.now ∷ [];
              clock = clock_behind self.now.clock step.now;
            })
            (step_added step.now self.now) }
    {
        fault_unless(self.part.is_steps(), FileKind::BadLine)?;
        fault_unless(self.steps.len() < MAX_STEPS, FileKind::TooMany)?;
        fault_unless(self.knows(step), FileKind::Unknown)?;
        let clock = self.clock_behind(step);
        fault_unless(self.clock <= clock, FileKind::ClockBack)
    }
}
