//! How far a replay agrees with the log of which its trace was made.
use rev_markup::markup::Piece::{Count, Markup};
use rev_markup::markup::put;
use rev_markup::share::{Share, put_per_cent};
use std::alloc::AllocError;

/// How far a replay agrees with a server's log.
#[derive(Clone, Copy)]
pub struct Agreement {
    /// How many of the log's look-ups the replay answers as the log does.
    pub gets: Share,
    /// How many of the log's evictions the replay has: of the same key, since the same store.
    pub evictions: Share,
    /// How many evictions the replay has that the log has not.
    pub others: u64,
}

// Puts a name, and which part of a whole it has.
fn put_share(out: &mut Vec<u8>, name: &'static str, share: Share) -> Result<(), AllocError> {
    put(
        out,
        &[
            Markup("<div><dt>"),
            Markup(name),
            Markup("</dt><dd>"),
            Count(share.part),
            Markup(" of "),
            Count(share.whole),
        ],
    )?;
    if share.whole > 0 {
        put(out, &[Markup(" (")])?;
        put_per_cent(out, share.thousandths())?;
        put(out, &[Markup(")")])?;
    }
    put(out, &[Markup("</dd></div>")])
}

/// Puts how far the replay agrees with the log.
pub fn put_agreement(out: &mut Vec<u8>, agreement: &Agreement) -> Result<(), AllocError> {
    put(
        out,
        &[Markup("<h3>Agreement with the server\u{2019}s log</h3><dl class=\"few\">")],
    )?;
    put_share(out, "Gets answered as logged", agreement.gets)?;
    put_share(out, "Logged evictions replayed", agreement.evictions)?;
    put(
        out,
        &[
            Markup("<div><dt>Evictions not in the log</dt><dd>"),
            Count(agreement.others),
            Markup(
                "</dd></div></dl><p class=\"soft\">An eviction is replayed where the same key was evicted since the same store. The figures below are those of the replay.</p>",
            ),
        ],
    )
}
