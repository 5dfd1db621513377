//! Instructions. A call has slots and a stack of operands, and no instruction sees those of another call: what is
//! called gets its arguments, and gives its result.

use lsl_value::{BinaryOp, BuiltinId, Kind, Text, UnaryOp};

/// An instruction. Places are counted in instructions from the function's first, at 0; slots, globals, functions,
/// states and resume points are named by their numbers, from 0.
#[derive(Drop)]
pub enum Instr {
    /// Pushes an integer.
    Int(i32),
    /// Pushes a text.
    Str(Text),
    /// Pushes a copy of a slot.
    Load(u16),
    /// Pushes a copy of a global.
    LoadGlobal(u16),
    /// Stores a copy of the top in a slot. The top stays.
    Store(u16),
    /// Stores a copy of the top in a global. The top stays.
    StoreGlobal(u16),
    /// Pops into a slot.
    Set(u16),
    /// Pops.
    Drop,
    /// Pops an integer, pushes the operator's value.
    Unary(UnaryOp),
    /// Pops the left operand and then the right one, pushes the operator's value.
    Binary(BinaryOp),
    /// Pops, pushes the value as one of this kind.
    Cast(Kind),
    /// Pops this many elements, the last one first, pushes their list.
    MakeList(u32),
    /// Continues at the place.
    Jump(u32),
    /// Pops, continues at the place if the value is true.
    JumpIf(u32),
    /// Pops, continues at the place if the value is false.
    JumpIfNot(u32),
    /// Pops the arguments of a pure call, the last one first, pushes its value.
    Pure(BuiltinId),
    /// Pushes the script's charge.
    Used,
    /// Pushes how much more the script may be charged.
    Free,
    /// Pops a number, makes it the script's limit if it may be, pushes whether it is.
    SetLimit,
    /// Pushes the script's limit.
    GetLimit,
    /// Pops the arguments of a host call, the last one first, asks for it, and pushes the answer if there is one.
    Host(BuiltinId),
    /// The machine halts before it, at this resume point.
    Tick(u16),
    /// Pops the arguments of a function, the last one first, and enters it. The second number is the resume point.
    Call(u16, u16),
    /// Leaves the call.
    Return,
    /// Pops, leaves the call, and pushes the value in the caller.
    ReturnValue,
    /// Ends the handler, which goes to a state.
    GoState(u16),
    /// Ends the handler, which asks for a reset.
    Reset,
    /// Continues at the place if the machine is saving.
    TestSave(u32),
    /// Puts a slot before the values of the current frame.
    KeepSlot(u16),
    /// Pops, and puts the operand before the values of the current frame.
    KeepTop,
    /// Closes the current frame with this function and point, adds it to the saved ones, leaves the call.
    Seal(u16),
    /// Continues at the place if the machine is restoring.
    TestBack(u32),
    /// Makes the outermost of the saved frames the current frame.
    Unpack,
    /// Moves the frame's next value to a slot.
    BackSlot(u16),
    /// Pushes the frame's next value.
    BackTop,
    /// Continues at the block of the frame's point.
    Branch,
    /// Enters a function while restoring, without arguments.
    Again(u16),
    /// Ends restoring.
    Awake,
}
