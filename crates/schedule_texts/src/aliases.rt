ghost use Rattle.std.specs.Prelude.{◌≡◌, ◌&&◌};
ghost use Rattle.schedule_texts.specs.Matches.{fits_aliases, fits_fields};
ghost use Rattle.schedule_texts.specs.Aliases.{aliases_of, with_alias, without_space};

use crate::fields::FieldSets;
use crate::minute::CivilMinute;
use crate::numbers::NumberSet;

/// Fields that hold the first minute of each hour.
const HOURLY: FieldSets = FieldSets {
    minutes: FIRST_OF_TIME,
    hours: NumberSet { bits: 0xff_ffff },
    days: NumberSet { bits: 0xffff_fffe },
    months: NumberSet { bits: 0x1ffe },
    weekdays: NumberSet { bits: 0x7f },
    any_day: true,
    any_weekday: true,
};

/// The first minute of each day.
const DAILY: FieldSets = FieldSets {
    hours: FIRST_OF_TIME,
    ..HOURLY
};

/// The first minute of each Sunday.
const WEEKLY: FieldSets = FieldSets {
    weekdays: NumberSet { bits: 1 },
    any_weekday: false,
    ..DAILY
};

/// The first minute of each month.
const MONTHLY: FieldSets = FieldSets {
    days: FIRST_OF_DATE,
    any_day: false,
    ..DAILY
};

/// The first minute of each year.
const YEARLY: FieldSets = FieldSets {
    months: FIRST_OF_DATE,
    ..MONTHLY
};

/// The first minute or hour, which is 0.
const FIRST_OF_TIME: NumberSet = NumberSet { bits: 1 };

/// The first day or month, which is 1.
const FIRST_OF_DATE: NumberSet = NumberSet { bits: 2 };

/// Which aliases a schedule names. `@midnight` is `@daily`, and `@annually` is `@yearly`.
#[derive(Clone, Copy)]
pub struct AliasSet {
    pub hourly: bool,
    pub daily: bool,
    pub weekly: bool,
    pub monthly: bool,
    pub yearly: bool,
}

impl AliasSet {
    const NONE: AliasSet = AliasSet {
        hourly: false,
        daily: false,
        weekly: false,
        monthly: false,
        yearly: false,
    };

    /// Reads aliases with a comma between them, and one space or none behind each comma.
    #[tactic(auto, unfolding(crate::specs::Aliases::aliases_of))]
    pub(crate) fn read(text: &str) -> Option<AliasSet>
        ensures { result ≡ aliases_of text.now }
    {
        if text.starts_with(' ') {
            return None;
        }
        let mut aliases = AliasSet::NONE;
        for name in text.split(',') {
            aliases = aliases.with(without_space(name))?;
        }
        Some(aliases)
    }

    /// Whether a minute is in the fields that one of the aliases stands for.
    #[tactic(auto, using(crate::proofs::Meanings::meanings))]
    pub fn fits(&self, at: &CivilMinute) -> bool
        ensures { result ≡ fits_aliases self.now at.now }
    {
        is_due(self.hourly, &HOURLY, at)
            || is_due(self.daily, &DAILY, at)
            || is_due(self.weekly, &WEEKLY, at)
            || is_due(self.monthly, &MONTHLY, at)
            || is_due(self.yearly, &YEARLY, at)
    }

    /// The same with one more alias, if it is one.
    fn with(self, name: &str) -> Option<AliasSet>
        ensures { result ≡ with_alias name.now self }
    {
        let mut aliases = self;
        match name {
            "@hourly" => aliases.hourly = true,
            "@daily" | "@midnight" => aliases.daily = true,
            "@weekly" => aliases.weekly = true,
            "@monthly" => aliases.monthly = true,
            "@annually" | "@yearly" => aliases.yearly = true,
            _ => return None,
        }
        Some(aliases)
    }
}

/// Whether an alias is named, and a minute is in the fields that it stands for.
fn is_due(named: bool, fields: &FieldSets, at: &CivilMinute) -> bool
    ensures { result ≡ (named && fits_fields fields.now at.now) }
{
    named && fields.fits(at)
}

/// A text without the space at its front, if one is there.
fn without_space(name: &str) -> &str
    ensures { result.now ≡ without_space name.now }
{
    name.strip_prefix(' ').unwrap_or(name)
}
