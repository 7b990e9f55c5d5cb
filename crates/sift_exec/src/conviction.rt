//! Who is convicted on the units' reports, and the configuration of the next frame.

ghost use Rattle.std.specs.Prelude.{◌≡◌, ℕ, count_by, length, not, ◌&&◌, nat_eq};
ghost use Rattle.sift_base.specs.Units.{holds, has_bit, others};
ghost use Rattle.sift_exec.specs.Conviction.{is_convicted, names_by, next_units, ConvictionIsJust};

use sift_base::{UnitId, UnitSet, Word};
use sift_config::Config;

/// How many other units convict a unit: one alone may be the faulty one.
const ENOUGH_ACCUSERS: usize = 2;

/// The units of the configuration that at least two other units name.
///
/// Each unit of the configuration has a report in `masks`, in the order of the units: bit u stands for unit u. What a
/// unit says of itself counts nothing, and so do bits of units outside the configuration.
pub fn convict(masks: &[Word], config: &Config) -> UnitSet
    requires { length masks.now ≡ length config.now }
    ensures { (u : ℕ) → holds result u ≡ is_convicted (names_by config.now masks.now) config.now u }
{
    let mut convicted = UnitSet::empty();
    for position in 0..config.len() {
        let unit = config.unit_at(position);
        if accusers_of(unit, masks, config) >= ENOUGH_ACCUSERS {
            convicted = convicted.with(unit);
        }
    }
    convicted
}

/// How many other units of the configuration name the unit.
fn accusers_of(accused: UnitId, masks: &[Word], config: &Config) -> usize
    requires { length masks.now ≡ length config.now }
    ensures { result ≡ count_by (λ r. names_by config.now masks.now r accused) (others accused config.now) }
{
    let mut count = 0;
    for position in 0..config.len() {
        if accuses(config.unit_at(position), masks[position], accused) {
            count += 1;
        }
    }
    count
}

/// Whether a unit's report names another unit.
fn accuses(accuser: UnitId, report: Word, accused: UnitId) -> bool
    ensures { result ≡ (not (nat_eq accuser accused) && has_bit report accused) }
{
    accuser != accused && (report.get() >> accused.get()) & 1 == 1
}

/// The configuration without the convicted units, where at least four remain, else the configuration as it is.
pub fn next_config(config: &Config, convicted: UnitSet) -> Config
    ensures { result ≡ next_units config.now convicted }
{
    match config.without(convicted) {
        Some(rest) => rest,
        None => *config,
    }
}

/// Within the margin, conviction is just where no working unit names a working one: no working unit is convicted,
/// exactly those are that two working units name, and four units remain.
pub fn conviction_is_just()
    ensures { ConvictionIsJust }
{}
