//! The settings that `lru tune` gives.
ghost use Rattle.std.specs.Prelude.{◌≡◌, ◌↔◌, IsTrue, IfOk, OnOk, OnErr, true, false};
ghost use Rattle.rev_model.specs.Sound.{SettingsSound};
ghost use Rattle.rev_requests.specs.Limits.{is_within, is_tune, tuned};

use rev_model::Settings;
use std::marker::Model;
use thiserror::Error;

/// The most that the shares of HOT and WARM may be together, in per cent (memcached's own).
pub const MOST_SHARES: u64 = 80;

/// The four numbers of `lru tune` (protocol.txt), within their limits (this project's own): the shares of HOT and WARM
/// in per cent, each 1 to 79 and both together at most 80, and their age factors in thousandths, each 1 to 1000000.
#[derive(Clone, Copy, Debug, PartialEq, Eq)]
pub struct Tune {
    hot_share: u8,
    warm_share: u8,
    hot_factor: u32,
    warm_factor: u32,
}

impl Model for Tune {
    ghost use Rattle.std.specs.Prelude.{◌≡◌, true};
    ghost use Rattle.rev_requests.specs.Limits.{PlainTune, is_tune};

    ghost Value = { PlainTune };

    ghost view = { λ t. record { hot_share = t.hot_share; warm_share = t.warm_share; hot_factor = t.hot_factor; warm_factor = t.warm_factor } };

    ghost invariant = { λ t. is_tune t.hot_share t.warm_share t.hot_factor t.warm_factor ≡ true };

    ghost inverse = { λ v. record { hot_share = v.hot_share; warm_share = v.warm_share; hot_factor = v.hot_factor; warm_factor = v.warm_factor } };
}

/// A number of `lru tune` is outside its limits.
#[derive(Clone, Copy, Debug, PartialEq, Eq, Drop, Error)]
#[error("tune outside its limits")]
pub struct BadTune;

fn is_within(least: u32, most: u32, number: u32) -> bool
    ensures { result ≡ is_within least most number }
{
    least <= number && number <= most
}

fn is_tune(hot_share: u32, warm_share: u32, hot_factor: u32, warm_factor: u32) -> bool
    ensures { result ≡ is_tune hot_share warm_share hot_factor warm_factor }
{
    let hot = is_within(1, 79, hot_share);
    let warm = is_within(1, 79, warm_share);
    let both = u64::from(hot_share) + u64::from(warm_share) <= MOST_SHARES;
    let factors = is_within(1, 1000000, hot_factor) && is_within(1, 1000000, warm_factor);
    hot && warm && both && factors
}

impl Tune {
    /// The four numbers: shares in per cent and factors in thousandths.
    ///
    /// Err: one of them is outside its limits.
    pub fn new(
        hot_share: u32,
        warm_share: u32,
        hot_factor: u32,
        warm_factor: u32,
    ) -> Result<Tune, BadTune>
        ensures ok { IfOk result (λ tune. tune ≡ record { hot_share = hot_share; warm_share = warm_share; hot_factor = hot_factor; warm_factor = warm_factor }) }
        ensures within { OnOk result (is_tune hot_share warm_share hot_factor warm_factor ≡ true) }
        ensures bad { OnErr result (is_tune hot_share warm_share hot_factor warm_factor ≡ false) }
    {
        if !is_tune(hot_share, warm_share, hot_factor, warm_factor) {
            return Err(BadTune);
        }
        Ok(Tune {
            hot_share: hot_share as u8,
            warm_share: warm_share as u8,
            hot_factor,
            warm_factor,
        })
    }

    /// HOT's share of a class's bytes, 1 to 79 per cent. The four numbers are within their limits.
    pub fn hot_share(self) -> u8
        ensures value { result ≡ self.hot_share }
        ensures within { is_tune self.hot_share self.warm_share self.hot_factor self.warm_factor ≡ true }
    {
        self.hot_share
    }

    /// WARM's share of a class's bytes, 1 to 79 per cent.
    pub fn warm_share(self) -> u8
        ensures { result ≡ self.warm_share }
    {
        self.warm_share
    }

    /// How old HOT's items may become, in thousandths of the age of COLD's last: 1 to 1000000.
    pub fn hot_factor(self) -> u32
        ensures { result ≡ self.hot_factor }
    {
        self.hot_factor
    }

    /// How old WARM's items may become, in thousandths of the age of COLD's last: 1 to 1000000.
    pub fn warm_factor(self) -> u32
        ensures { result ≡ self.warm_factor }
    {
        self.warm_factor
    }

    /// The settings with these four numbers, and the bound of TEMP as it was.
    pub fn applied_to(self, settings: Settings) -> Settings
        ensures value { result ≡ tuned self settings }
        ensures sound { SettingsSound result }
    {
        Settings {
            hot_share: self.hot_share,
            warm_share: self.warm_share,
            hot_factor: self.hot_factor,
            warm_factor: self.warm_factor,
            temp_ttl: settings.temp_ttl,
        }
    }

    /// Whether the two are equal.
    pub fn is_same(self, other: Tune) -> bool
        ensures { IsTrue result ↔ (self ≡ other) }
    {
        self == other
    }
}
