//! What is known of the runs in which a body is read.

ghost use Rattle.std.specs.Prelude.{◌≡◌};
ghost use Rattle.tpl_model.specs.Prelude.{another, is_own, known};

use crate::{Final, Finals, InputId, MOST_INPUTS, MOST_SITES, MOST_TOKENS, SiteId, TokenId};

/// The values that an input may have.
#[derive(Clone, Copy, PartialEq, Eq, Debug)]
pub struct Possible {
    pub on_true: bool,
    pub on_false: bool,
}

/// What is known of the runs in which a body is read: the values that each input may have, the
/// tokens that are never requested, the task's own token, how its subject may have ended, and the
/// sites whose jobs don't fail (the rules of reading are this program's own).
#[derive(Clone, Copy, PartialEq, Eq, Debug)]
pub struct View {
    pub inputs: [Possible; MOST_INPUTS],
    pub quiet: [bool; MOST_TOKENS],
    pub own: Option<TokenId>,
    pub subject: Finals,
    pub sure: [bool; MOST_SITES],
}

impl View {
    /// The input may have the value. One past the last entry may have both.
    pub fn may_be(&self, input: InputId, value: bool) -> bool
        ensures { result ≡ (known self.now).possible input.0 value }
    {
        let at = input.0 as usize;
        if at >= MOST_INPUTS {
            return true;
        }
        let possible = self.inputs[at];
        if value {
            possible.on_true
        } else {
            possible.on_false
        }
    }

    /// The token is never requested. One past the last entry may be.
    pub fn is_quiet(&self, token: TokenId) -> bool
        ensures { result ≡ (known self.now).quiet token.0 }
    {
        let at = token.0 as usize;
        at < MOST_TOKENS && self.quiet[at]
    }

    /// The token is the task's own.
    pub fn is_own(&self, token: TokenId) -> bool
        ensures { result ≡ is_own (known self.now).own token.0 }
    {
        match self.own {
            None => false,
            Some(own) => own.0 == token.0,
        }
    }

    /// The site's job doesn't fail. One past the last entry may.
    pub fn is_sure(&self, site: SiteId) -> bool
        ensures { result ≡ (known self.now).sure site.0 }
    {
        let at = site.0 as usize;
        at < MOST_SITES && self.sure[at]
    }

    /// The subject may have ended in this way.
    pub fn may_have_ended(&self, status: Final) -> bool
        ensures { result ≡ (known self.now).subject status }
    {
        self.subject.contains(status)
    }

    /// The subject may have ended in another way.
    pub fn may_differ(&self, status: Final) -> bool
        ensures { result ≡ another (known self.now) status }
    {
        match status {
            Final::RanToCompletion => self.subject.canceled || self.subject.faulted,
            Final::Canceled => self.subject.ran || self.subject.faulted,
            Final::Faulted => self.subject.ran || self.subject.canceled,
        }
    }
}
