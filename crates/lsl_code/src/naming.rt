//! The names and lines of a woven unit, for a reader.

ghost use Rattle.std.specs.Prelude.{◌≡◌, ◌<◌, length};
ghost use Rattle.std.specs.Str.{encode_utf8_all};
ghost use Rattle.lsl_code.specs.Naming.{HasPoint, function_name, line_of, state_name};

use crate::woven_units::Woven;

impl Woven {
    /// The name of the function of this number; a handler's function has its event's name. Takes no memory.
    pub fn function_name(&self, function: u16) -> &str
        requires { function < length self.now.functions }
        ensures { result.now ≡ encode_utf8_all (function_name self.now.functions function) }
    {
        self.functions.as_slice()[usize::from(function)]
            .name
            .as_str()
    }

    /// The name of the state of this number. Takes no memory.
    pub fn state_name(&self, state: u16) -> &str
        requires { state < length self.now.states }
        ensures { result.now ≡ encode_utf8_all (state_name self.now.states state) }
    {
        self.states.as_slice()[usize::from(state)].name.as_str()
    }

    /// The line of the script's text for a call of the function at this point: that of a name at its entry, of a loop
    /// or a jump at a tick, and of the called name at a call. Takes no memory.
    pub fn line(&self, function: u16, point: u16) -> u32
        requires { HasPoint self.now.functions function point }
        ensures { result ≡ line_of self.now.functions function point }
    {
        let lines = &self.functions.as_slice()[usize::from(function)].lines;
        lines.as_slice()[usize::from(point)]
    }
}
