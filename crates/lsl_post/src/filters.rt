//! What a listen asks of spoken text.

ghost use Rattle.std.specs.Prelude.{◌≡◌, ◌++◌};
ghost use Rattle.std.specs.Cmp.{partial_equiv_from_equiv};
ghost use Rattle.std.specs.Hash as fed;
ghost use Rattle.std.specs.Hash.{same_Alike};
ghost use Rattle.std.specs.Str.{encode_utf8_all};
ghost use Rattle.lsl_post.specs.FilterLaws.{same_filter-Decides, same_filter_equiv};
ghost use Rattle.lsl_post.specs.Filters.{same_filter};

use lsl_value::Text;
use std::hash::{Hash, Hasher};

/// The four values of a listen, as they were passed.
#[derive(Drop)]
pub struct Filter {
    pub channel: i32,
    pub name: Text,
    pub id: Text,
    pub message: Text,
}

impl PartialEq for Filter {
    ghost eq = { same_filter };

    ghost laws = { partial_equiv_from_equiv same_filter_equiv };

    fn eq(&self, other: &Filter) -> bool {
        self.channel == other.channel
            && self.name == other.name
            && self.id == other.id
            && self.message == other.message
    }
}

impl Eq for Filter {
    ghost laws = { same_filter_equiv };
}

impl Hash for Filter {
    ghost hash_input = { λ f.
        fed.i32 f.channel ++ fed.str (encode_utf8_all f.name) ++ fed.str (encode_utf8_all f.id)
        ++ fed.str (encode_utf8_all f.message) };

    ghost respects_eq = { (same_Alike _ same_filter-Decides).fed };

    fn hash<H: Hasher>(&self, state: &mut H) {
        self.channel.hash(state);
        self.name.as_str().hash(state);
        self.id.as_str().hash(state);
        self.message.as_str().hash(state);
    }
}
