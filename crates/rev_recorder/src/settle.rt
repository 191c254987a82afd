//! The end of a recording: the hands are compared with the log.
ghost use Rattle.std.specs.Prelude.{◌≡◌, ◌≢◌, ◌↔◌, map, All, IsTrue, MatchBool, MatchOption};
ghost use Rattle.rev_recorder.specs.Hands.{told, calls_of, has_hand, has_stranger, has_player, LacksHand, HasHands, LacksPlayer, HasPlayers, IsTrueEntry, Agrees, Settles, HasOneEach, IsSecond};
ghost use Rattle.rev_recorder.specs.Log.{IsLegal};
ghost use Rattle.rev_recorder.specs.Settling.{SettleGives};

use crate::hand::{Call, Entry, Hand, LogRow};
use crate::recorder::Recorder;
use crate::recording::Recording;
use rev_model::Outcome;
use rev_undotree::Session;
use std::alloc::Global;

/// A recording that is over: the session, and the log of the calls that led to it.
#[derive(Drop)]
pub struct Settled {
    pub session: Session<Global>,
    pub log: Vec<LogRow>,
}

/// Why a recording did not settle, and what is handed back.
#[derive(Drop)]
pub enum SettleFault {
    /// Some player has no hand of the recorder's seal among the hands.
    MissingHand {
        recorder: Recorder,
        hands: Vec<Hand>,
    },
    /// Some hand has another seal than the recorder.
    StrangerHand {
        recorder: Recorder,
        hands: Vec<Hand>,
    },
    /// The hands and the log differ: for this player, at this place of the log.
    Differs {
        player: usize,
        place: usize,
        settled: Settled,
        hands: Vec<Hand>,
    },
}

impl Recorder {
    /// Ends the recording, and compares the hands with the log: each hand must have been told just the calls of its
    /// player, in order, with the node's own step and outcome for a play, and each row of the log must be one entry of
    /// one hand. It waits for no lock.
    ///
    /// Err: MissingHand goes before StrangerHand, and that before Differs.
    pub fn settle(self, hands: Vec<Hand>) -> Result<Settled, SettleFault>
        ensures { SettleGives self hands.items result }
    {
        if lacks_hand(hands.as_slice(), self.seal, self.players) {
            return Err(SettleFault::MissingHand {
                recorder: self,
                hands,
            });
        }
        if has_stranger(hands.as_slice(), self.seal) {
            return Err(SettleFault::StrangerHand {
                recorder: self,
                hands,
            });
        }
        let settled = self.shared.into_inner().finish();
        match difference(hands.as_slice(), settled.log.as_slice(), &settled.session) {
            None => Ok(settled),
            Some((player, place)) => Err(SettleFault::Differs {
                player,
                place,
                settled,
                hands,
            }),
        }
    }
}

impl Recording {
    /// The session and the log.
    fn finish(self) -> Settled
        ensures log { result.log.items ≡ self.log }
        ensures session { result.session ≡ self.session }
        ensures legal { IsLegal self.opening self.log self.session }
    {
        let Recording {
            session,
            log,
            first_count: _,
            first_node: _,
        } = self;
        Settled { session, log }
    }
}

/// Whether some hand is this player's and has this seal.
fn has_hand(hands: &[Hand], seal: u64, player: usize) -> bool
    ensures { result ≡ has_hand seal player hands.now }
{
    hands
        .iter()
        .any(|hand| hand.player() == player && hand.seal() == seal)
}

/// Whether some player has no hand of the seal.
fn lacks_hand(hands: &[Hand], seal: u64, players: usize) -> bool
    ensures { MatchBool result (LacksHand seal players hands.now) (HasHands seal players hands.now) }
{
    for player in 0..players {
        if !has_hand(hands, seal, player) {
            return true;
        }
    }
    false
}

/// Whether some hand has another seal.
fn has_stranger(hands: &[Hand], seal: u64) -> bool
    ensures { result ≡ has_stranger seal hands.now }
{
    hands.iter().any(|hand| !(hand.seal() == seal))
}

/// A player and a place at which hands and log differ.
fn difference(hands: &[Hand], log: &[LogRow], session: &Session<Global>) -> Option<(usize, usize)>
    ensures { MatchOption result (Settles hands.now log.now session.now) (λ _. Settles hands.now log.now session.now → ⊥) }
{
    if let Some(found) = false_hand(hands, log, session) {
        return Some(found);
    }
    if let Some(found) = lost_row(hands, log) {
        return Some(found);
    }
    if let Some(found) = second_hand(hands) {
        return Some(found);
    }
    None
}

/// The first hand that does not agree, and the place.
fn false_hand(hands: &[Hand], log: &[LogRow], session: &Session<Global>) -> Option<(usize, usize)>
    ensures { MatchOption result (All (Agrees log.now session.now) hands.now) (λ _. All (Agrees log.now session.now) hands.now → ⊥) }
{
    for hand in hands {
        if let Some(place) = hand.difference(log, session) {
            return Some((hand.player(), place));
        }
    }
    None
}

/// The first row whose player has no hand.
fn lost_row(hands: &[Hand], log: &[LogRow]) -> Option<(usize, usize)>
    ensures { MatchOption result (HasPlayers hands.now log.now) (λ _. LacksPlayer hands.now log.now) }
{
    for (place, row) in log.iter().enumerate() {
        if !has_player(hands, row.player) {
            return Some((row.player, place));
        }
    }
    None
}

/// The first hand with entries whose player an earlier hand has, and the place of its first entry.
fn second_hand(hands: &[Hand]) -> Option<(usize, usize)>
    ensures { MatchOption result (HasOneEach hands.now) (λ _. IsSecond hands.now) }
{
    for (index, hand) in hands.iter().enumerate() {
        if has_player(&hands[..index], hand.player()) {
            if let Some(entry) = hand.entries().first() {
                return Some((hand.player(), entry.receipt.place));
            }
        }
    }
    None
}

/// Whether some hand is this player's.
fn has_player(hands: &[Hand], player: usize) -> bool
    ensures { result ≡ has_player player hands.now }
{
    hands.iter().any(|hand| hand.player() == player)
}

impl Hand {
    /// The place at which the hand and the log differ.
    fn difference(&self, log: &[LogRow], session: &Session<Global>) -> Option<usize>
        ensures { MatchOption result (Agrees log.now session.now self.now) (λ _. Agrees log.now session.now self.now → ⊥) }
    {
        if let Some(place) = other_call(self.player, self.entries.as_slice(), log) {
            return Some(place);
        }
        if let Some(place) = false_entry(self.entries.as_slice(), session) {
            return Some(place);
        }
        None
    }
}

/// The place of the first call that entries and log do not both have.
fn other_call(player: usize, entries: &[Entry], log: &[LogRow]) -> Option<usize>
    ensures { MatchOption result (map told entries.now ≡ calls_of player log.now) (λ _. map told entries.now ≢ calls_of player log.now) }
{
    let mut next = 0;
    for (place, row) in log.iter().enumerate() {
        if row.player == player {
            if next == entries.len() {
                return Some(place);
            }
            let entry = &entries[next];
            if !entry.tells(place, row.call) {
                return Some(place.min(entry.receipt.place));
            }
            next += 1;
        }
    }
    if next == entries.len() {
        return None;
    }
    let entry = &entries[next];
    Some(entry.receipt.place)
}

/// The place of the first entry that is not true of the session.
fn false_entry(entries: &[Entry], session: &Session<Global>) -> Option<usize>
    ensures { MatchOption result (All (IsTrueEntry session.now) entries.now) (λ _. All (IsTrueEntry session.now) entries.now → ⊥) }
{
    for entry in entries {
        if !entry.is_true(session) {
            return Some(entry.receipt.place);
        }
    }
    None
}

impl Entry {
    /// Whether it tells of this call at this place.
    fn tells(&self, place: usize, call: Call) -> bool
        ensures { IsTrue result ↔ (told self.now ≡ (place, call)) }
    {
        self.receipt.place == place && self.receipt.call == call
    }

    /// Whether it tells of this outcome.
    fn answers(&self, outcome: Outcome) -> bool
        ensures { IsTrue result ↔ (self.now.receipt.outcome ≡ outcome) }
    {
        self.receipt.outcome == outcome
    }

    /// Whether the session has its step at its node, and its outcome is what that step gives there.
    fn is_true(&self, session: &Session<Global>) -> bool
        ensures { IsTrue result ↔ IsTrueEntry session.now self.now }
    {
        match self.receipt.call {
            Call::Play(node) => match session.row(node) {
                None => false,
                Some((step, outcome)) => match &self.step {
                    None => false,
                    Some(copy) => copy.is_same(step) && self.answers(outcome),
                },
            },
            Call::Go(_) => self.answers(Outcome::Okay),
            Call::Many => self.answers(Outcome::Okay),
            Call::Deep => self.answers(Outcome::Okay),
            Call::Lost(_) => self.answers(Outcome::Okay),
        }
    }
}
