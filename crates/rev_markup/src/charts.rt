//! What stands beside pictures.
use crate::markup::Piece::{self, Markup};
use crate::markup::put;
use std::alloc::AllocError;

/// Puts an entry of a legend for each fill that is shown.
pub fn put_fills(
    out: &mut Vec<u8>,
    fills: &[&'static str],
    names: &[&'static str],
    shown: &[bool],
) -> Result<(), AllocError> {
    for ((fill, name), is_shown) in fills.iter().zip(names).zip(shown) {
        if *is_shown {
            put(
                out,
                &[
                    Markup(
                        "<li><svg viewBox=\"0 0 22 14\" aria-hidden=\"true\"><rect width=\"22\" height=\"14\" fill=\"",
                    ),
                    Markup(*fill),
                    Markup("\"/></svg>"),
                    Markup(*name),
                    Markup("</li>"),
                ],
            )?;
        }
    }
    Ok(())
}

/// Puts a name and its value.
pub fn put_fact(
    out: &mut Vec<u8>,
    name: &'static str,
    value: &[Piece<'_>],
) -> Result<(), AllocError> {
    put(
        out,
        &[Markup("<div><dt>"), Markup(name), Markup("</dt><dd>")],
    )?;
    put(out, value)?;
    put(out, &[Markup("</dd></div>")])
}
