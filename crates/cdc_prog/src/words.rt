//! The words of the command line.

ghost use Rattle.std.specs.Prelude.{◌≡◌, [], map, string_bytes, IfOk};
ghost use Rattle.std.specs.Vec.Iter.{into_iter_items};

use cdc_base::{Memory, Text, TextList};
use std::alloc::Global;
use std::env;
use std::env::Args;
use std::io::{Error, ErrorKind};
use std::rt::Env;

/// The words behind the program's name: none where one of them isn't UTF-8, or they can't be had.
pub fn words_of<R: AllocGlobal + Env>(rt: &R) -> Result<TextList, Memory> {
    match env::args(rt) {
        Ok(mut args) => {
            let _name = args.next();
            texts_of(rt.alloc(), args)
        }
        Err(error) => without_words(rt.alloc(), &error),
    }
}

/// The same texts.
fn texts_of(alloc: Global, words: Args) -> Result<TextList, Memory>
    ensures { IfOk result (λ texts. texts ≡ map string_bytes (into_iter_items words)) }
{
    let mut texts = TextList::new(alloc);
    for word in words {
        texts.push(Text::of(alloc, &word)?)?;
    }
    Ok(texts)
}

/// No words, or `Memory` where that was why there are none.
fn without_words(alloc: Global, error: &Error) -> Result<TextList, Memory>
    ensures { IfOk result (λ words. words ≡ []) }
{
    match error.kind() {
        ErrorKind::OutOfMemory => Err(Memory),
        _ => Ok(TextList::new(alloc)),
    }
}
