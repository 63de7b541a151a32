//! Versions heard of, by numbers in lists.
ghost use Rattle.std.specs.Prelude.{◌≡◌};

use crate::search::heard::HeardVersions;

/// What a transactor or a message has heard: a version of one transactor, and for each other one the number in a list, 0
/// where none stands.
#[derive(Clone, Copy)]
pub struct Numbered<'a> {
    pub who: u32,
    pub version: u32,
    pub numbers: &'a [u32],
}

impl<'a> HeardVersions for Numbered<'a> {
    ghost use Rattle.tau_versions.specs.Search.Numbered.{with_version};

    ghost numbers = { λ h. with_version h.who h.version h.numbers.now };

    fn number(&self, who: u32) -> u32 {
        if who == self.who {
            return self.version;
        }
        match self.numbers.get(who as usize) {
            Some(number) => *number,
            None => 0,
        }
    }
}

/// What a transactor and a message have heard, together: of each transactor the later version. Nothing is merged.
#[derive(Clone, Copy)]
pub struct Together<'a> {
    pub own: Numbered<'a>,
    pub message: Numbered<'a>,
}

impl<'a> HeardVersions for Together<'a> {
    ghost use Rattle.tau_versions.specs.Search.Numbered.{with_version, later};

    ghost numbers = { λ h. later (with_version h.own.who h.own.version h.own.numbers.now) (with_version h.message.who h.message.version h.message.numbers.now) };

    fn number(&self, who: u32) -> u32 {
        self.own.number(who).max(self.message.number(who))
    }
}
