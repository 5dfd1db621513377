//! Copies of a function's parts.

ghost use Rattle.std.specs.Prelude.{◌≡◌, IfOk};

use lsl_code::Instr;
use lsl_text::NoMemory;

/// An equal instruction, which shares this one's text.
pub fn copy_instr(instr: &Instr) -> Result<Instr, NoMemory>
    ensures { IfOk result (λ i. i ≡ instr.now) }
{
    Ok(match instr {
        Instr::Int(n) => Instr::Int(*n),
        Instr::Str(text) => Instr::Str(text.copy()?),
        Instr::Load(n) => Instr::Load(*n),
        Instr::LoadGlobal(n) => Instr::LoadGlobal(*n),
        Instr::Store(n) => Instr::Store(*n),
        Instr::StoreGlobal(n) => Instr::StoreGlobal(*n),
        Instr::Set(n) => Instr::Set(*n),
        Instr::Drop => Instr::Drop,
        Instr::Unary(op) => Instr::Unary(*op),
        Instr::Binary(op) => Instr::Binary(*op),
        Instr::Cast(kind) => Instr::Cast(*kind),
        Instr::MakeList(n) => Instr::MakeList(*n),
        Instr::Jump(to) => Instr::Jump(*to),
        Instr::JumpIf(to) => Instr::JumpIf(*to),
        Instr::JumpIfNot(to) => Instr::JumpIfNot(*to),
        Instr::Pure(id) => Instr::Pure(*id),
        Instr::Used => Instr::Used,
        Instr::Free => Instr::Free,
        Instr::SetLimit => Instr::SetLimit,
        Instr::GetLimit => Instr::GetLimit,
        Instr::Host(id) => Instr::Host(*id),
        Instr::Tick(point) => Instr::Tick(*point),
        Instr::Call(f, point) => Instr::Call(*f, *point),
        Instr::Return => Instr::Return,
        Instr::ReturnValue => Instr::ReturnValue,
        Instr::GoState(n) => Instr::GoState(*n),
        Instr::Reset => Instr::Reset,
        Instr::TestSave(to) => Instr::TestSave(*to),
        Instr::KeepSlot(n) => Instr::KeepSlot(*n),
        Instr::KeepTop => Instr::KeepTop,
        Instr::Seal(point) => Instr::Seal(*point),
        Instr::TestBack(to) => Instr::TestBack(*to),
        Instr::Unpack => Instr::Unpack,
        Instr::BackSlot(n) => Instr::BackSlot(*n),
        Instr::BackTop => Instr::BackTop,
        Instr::Branch => Instr::Branch,
        Instr::Again(f) => Instr::Again(*f),
        Instr::Awake => Instr::Awake,
    })
}
