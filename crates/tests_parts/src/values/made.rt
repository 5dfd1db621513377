//! Generated worlds: their texts by digest, as another generator gave them.

use crate::shown::Shown;
use crate::words::number;
use lsl_made::made;
use lsl_value::Text;
use sha2::{Digest, Sha256};
use std::alloc::AllocError;

pub fn tell(told: &mut Shown, word: &str, rest: &str) -> Result<(), AllocError> {
    let made = made(told.alloc(), number(rest))?;
    match word {
        "world" => tell_text(told, &made.world),
        "script" => tell_text(told, &made.script),
        _ => told.add("no such row"),
    }
    Ok(())
}

/// How long a text is, and its digest.
fn tell_text(told: &mut Shown, text: &Text) {
    let mut hasher = Sha256::new();
    hasher.update(text.bytes());
    let digest = hasher.finalize();
    told.put(&text.bytes().len());
    told.add(" ");
    for byte in digest.as_slice() {
        told.hex(*byte);
    }
}
