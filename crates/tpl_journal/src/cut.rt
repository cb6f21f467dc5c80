//! Texts that are cut at a character.

ghost use Rattle.std.specs.Prelude.{◌≡◌, ◌<◌, true, MatchOption};
ghost use Rattle.tpl_journal.specs.Prelude.{IsCut, lacks};

/// What stands before and behind the first such character; none where there is none.
pub(crate) fn cut(text: &str, at: char) -> Option<(&str, &str)>
    requires { at < 128 }
    ensures { MatchOption result
        (lacks at text.now ≡ true)
        (λ x. IsCut at text.now x.0.now x.1.now) }
{
    text.split_once(at)
}
