//! Addresses of other servers.

ghost use Rattle.std.specs.Prelude.{◌≡◌, Some, map, codes, option_map, IfOk};
ghost use Rattle.clap.specs.Matches.{found_of};
ghost use Rattle.clap.specs.Walk.{first_of, rows_of};
ghost use Rattle.dbgd_words.specs.Words.{servers_in, upstream_texts};

use crate::arguments::text_of;
use clap::ArgMatches;
use federation::{UpstreamAt, read_address};
use std::alloc::{AllocError, Global};

/// The pieces of a text between its spaces, in order.
fn spaced(alloc: Global, text: &str) -> Result<Vec<&str>, AllocError>
    ensures { IfOk result (λ all. map (λ piece. piece.now) all.items
        ≡ upstream_texts (Some text.now)) }
{
    text.split(' ').collect(alloc)
}

/// Where the servers of these addresses are, in order, if each of the texts is an address.
pub fn servers_of(alloc: Global, texts: &[&str]) -> Result<Option<Vec<UpstreamAt>>, AllocError>
    ensures { IfOk result (λ servers. option_map (λ all. all.items) servers
        ≡ servers_in (map (λ text. text.now) texts.now)) }
{
    let mut servers = Vec::with_capacity(alloc, texts.len())?;
    for text in texts {
        let read = read_address(alloc, text)?;
        match read {
            Some(server) => servers.push(server)?,
            None => return Ok(None),
        }
    }
    Ok(Some(servers))
}

/// The addresses of other servers, which the text of an argument names.
pub fn upstream_of<'a>(alloc: Global, matches: &ArgMatches<'a>) -> Result<Vec<&'a str>, AllocError>
    ensures { IfOk result (λ all. map (λ piece. piece.now) all.items
        ≡ upstream_texts (first_of (codes "upstream") (rows_of (found_of matches.now)))) }
{
    match text_of(matches, "upstream") {
        Some(text) => spaced(alloc, text),
        None => Ok(Vec::new(alloc)),
    }
}
