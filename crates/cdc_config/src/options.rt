//! The options of a command: each at most once, in any order, with its value as the next word.

ghost use Rattle.std.specs.Prelude.{◌≡◌};
ghost use Rattle.cdc_config.specs.Options.{no_options, numbered, options_from, pace_from, sessions_from, with_threads};

use crate::number::number_of;
use cdc_base::Text;

/// The options that were given.
#[derive(Clone, Copy, Debug)]
pub struct Options {
    pub order: Option<u64>,
    pub threads: bool,
    pub connections: Option<u64>,
}

impl Options {
    // `--threads` more; none where it was given before.
    fn with_threads(self) -> Option<Options>
        ensures { result ≡ with_threads self }
    {
        if self.threads {
            return None;
        }
        Some(Options {
            threads: true,
            ..self
        })
    }

    // An option with a number more; none where it is no such option, or was given before.
    fn with_number(self, option: &[u8], number: u64) -> Option<Options>
        ensures { result ≡ numbered self option.now number }
    {
        if option == b"--order".as_slice() && self.order.is_none() {
            Some(Options {
                order: Some(number),
                ..self
            })
        } else if option == b"--connections".as_slice() && self.connections.is_none() {
            Some(Options {
                connections: Some(number),
                ..self
            })
        } else {
            None
        }
    }
}

// The options that words give; none where they give none.
fn options_of(words: &[Text]) -> Option<Options>
    ensures { result ≡ options_from no_options words.now }
{
    let mut given = Options {
        order: None,
        threads: false,
        connections: None,
    };
    let mut rest = words;
    while let [option, more @ ..] = rest {
        if option.bytes() == b"--threads".as_slice() {
            given = given.with_threads()?;
            rest = more;
        } else {
            let [value, more @ ..] = more else {
                return None;
            };
            given = given.with_number(option.bytes(), number_of(value)?)?;
            rest = more;
        }
    }
    Some(given)
}

/// The options of a pass: `--order N` or `--threads`, or neither.
pub fn pace_of(words: &[Text]) -> Option<Options>
    ensures { result ≡ pace_from words.now }
{
    let options = options_of(words)?;
    if options.connections.is_some() || (options.threads && options.order.is_some()) {
        return None;
    }
    Some(options)
}

/// The options of a server: `--connections N`, or none.
pub fn sessions_of(words: &[Text]) -> Option<Options>
    ensures { result ≡ sessions_from words.now }
{
    let options = options_of(words)?;
    if options.threads || options.order.is_some() {
        return None;
    }
    Some(options)
}
