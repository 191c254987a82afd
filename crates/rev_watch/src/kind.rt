//! Kinds of events.
ghost use Rattle.std.specs.Prelude.{◌≡◌};
ghost use Rattle.rev_watch.specs.Kinds.{known_kind};

use crate::text::is_word;

/// The kinds of events whose fields are looked at.
#[derive(Clone, Copy)]
pub enum Kind {
    LookUp,
    Store,
    Eviction,
    Deletion,
    PageMove,
    CrawlEnd,
    ConnectionOpened,
    ConnectionClosed,
}

/// The kind of this name, where its fields are looked at.
#[tactic(auto, unfolding(crate::specs::Kinds::known_kind))]
pub fn known_kind(word: &[u8]) -> Option<Kind>
    ensures { result ≡ known_kind word.now }
{
    if is_word(word, b"item_get") {
        Some(Kind::LookUp)
    } else if is_word(word, b"item_store") {
        Some(Kind::Store)
    } else if is_word(word, b"eviction") {
        Some(Kind::Eviction)
    } else if is_word(word, b"deleted") {
        Some(Kind::Deletion)
    } else if is_word(word, b"item_delete") {
        Some(Kind::Deletion)
    } else if is_word(word, b"slab_move") {
        Some(Kind::PageMove)
    } else if is_word(word, b"lru_crawler") {
        Some(Kind::CrawlEnd)
    } else if is_word(word, b"conn_new") {
        Some(Kind::ConnectionOpened)
    } else if is_word(word, b"conn_close") {
        Some(Kind::ConnectionClosed)
    } else {
        None
    }
}
