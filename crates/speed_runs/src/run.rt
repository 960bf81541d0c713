//! A run, as a line of the input names it.

ghost use Rattle.std.specs.Prelude.{◌<◌};

use crate::orders::Order;

/// A run: the calls of a table in an order over so many entries, or at random from a seed.
#[derive(Clone, Copy, Debug)]
pub struct Run<'a> {
    pub table: &'a str,
    pub call: &'a str,
    pub order: Order,
    pub entries: u32,
    pub seed: u64,
    pub calls: u32,
    pub ghost some: { 0 < entries },
}

impl<'a> Run<'a> {
    /// The run that a line names; a number that isn't there counts as 1.
    pub fn named(text: &'a str) -> Run<'a> {
        let mut words = text.split(' ');
        let table = words.next().unwrap_or("");
        let call = words.next().unwrap_or("");
        let third = words.next().unwrap_or("");
        let fourth = number(words.next());
        let fifth = number(words.next());
        Run {
            table,
            call,
            order: Order::named(third),
            entries: fourth,
            seed: u64::from(number(Some(third))),
            calls: if call == "random" { fourth } else { fifth },
        }
    }
}

/// The number of a word.
fn number(word: Option<&str>) -> u32
    ensures { 0 < result }
{
    word.unwrap_or("").parse::<u32>().unwrap_or(1).max(1)
}
