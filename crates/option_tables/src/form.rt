ghost use Rattle.std.specs.Prelude.{◌≡◌, map};
ghost use Rattle.std.specs.Result.{result_err};
ghost use Rattle.option_tables.specs.Forms.{value_fault, words_of, is_word, unless, cidr_fault};

use crate::names::{are_network_names, is_pattern};
use schedule_texts::read_schedule;
use size_values::{
    ValueFault, read_address, read_boolean, read_cidr, read_count, read_cpu, read_expiry,
    read_memory, read_size,
};

/// What values a key takes.
#[derive(Clone, Copy, PartialEq, Eq)]
pub enum Form {
    /// Any text.
    Text,
    Boolean,
    /// A number from the first to the second.
    Count(u64, u64),
    /// A number of bytes.
    Size,
    /// A number of processors, or the set of those that are meant.
    Cpu,
    /// A number of bytes, or a share of the host's memory.
    Memory,
    /// A time after which a snapshot expires.
    Expiry,
    /// A pattern for the names of snapshots.
    Pattern,
    /// When snapshots are made.
    Schedule,
    /// An IPv4 address.
    Address,
    /// An IPv4 address with the length of its network, or the word `none`.
    Cidr,
    /// Names of networks, joined by commas.
    Networks,
    /// One of these words.
    One(Words),
}

/// Lists of words, each named by its words.
#[derive(Clone, Copy, PartialEq, Eq)]
pub enum Words {
    None,
    HardSoft,
    HostInstance,
    BlockAllow,
    BlockAllowFull,
    ManagedBlockAllow,
    UnprivilegedIsolatedAllow,
    NicType,
}

impl Words {
    fn listed_words(self) -> &'static [&'static str]
        ensures { map (λ word. word.now) result.now ≡ words_of self }
    {
        match self {
            Words::None => &["none"],
            Words::HardSoft => &["hard", "soft"],
            Words::HostInstance => &["host", "instance"],
            Words::BlockAllow => &["block", "allow"],
            Words::BlockAllowFull => &["block", "allow", "full"],
            Words::ManagedBlockAllow => &["managed", "block", "allow"],
            Words::UnprivilegedIsolatedAllow => &["unprivileged", "isolated", "allow"],
            Words::NicType => &[
                "bridged", "macvlan", "p2p", "physical", "routed", "ipvlan", "sriov",
            ],
        }
    }
}

impl Form {
    /// Why a value has not this form, if it has not.
    #[tactic(auto, unfolding(crate::specs::Forms::value_fault))]
    pub fn check(self, value: &str) -> Result<(), ValueFault>
        ensures { result_err result ≡ value_fault self value.now }
    {
        match self {
            Form::Text => Ok(()),
            Form::Boolean => discard_value(read_boolean(value)),
            Form::Count(least, most) => discard_value(read_count(value, least, most)),
            Form::Size => discard_value(read_size(value)),
            Form::Cpu => discard_value(read_cpu(value)),
            Form::Memory => discard_value(read_memory(value)),
            Form::Expiry => discard_value(read_expiry(value)),
            Form::Pattern => in_range(is_pattern(value)),
            Form::Schedule => discard_value(read_schedule(value)),
            Form::Address => discard_value(read_address(value)),
            Form::Cidr => check_cidr(value),
            Form::Networks => in_range(are_network_names(value)),
            Form::One(words) => in_range(is_one_of(words.listed_words(), value)),
        }
    }
}

/// Forgets what was read.
fn discard_value<T: Drop>(read: Result<T, ValueFault>) -> Result<(), ValueFault>
    ensures { result_err result ≡ result_err read }
{
    match read {
        Ok(_) => Ok(()),
        Err(fault) => Err(fault),
    }
}

/// A text that is none of those that are taken.
fn in_range(is_taken: bool) -> Result<(), ValueFault>
    ensures { result_err result ≡ unless is_taken }
{
    if is_taken {
        Ok(())
    } else {
        Err(ValueFault::OutOfRange)
    }
}

fn check_cidr(value: &str) -> Result<(), ValueFault>
    ensures { result_err result ≡ cidr_fault value.now }
{
    if value == "none" {
        Ok(())
    } else {
        discard_value(read_cidr(value))
    }
}

fn is_one_of(words: &[&str], value: &str) -> bool
    ensures { result ≡ is_word (map (λ word. word.now) words.now) value.now }
{
    for word in words {
        if *word == value {
            return true;
        }
    }
    false
}
