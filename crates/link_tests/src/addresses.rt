//! Addresses of other servers.

use federation::{UpstreamAt, read_address};
use std::alloc::Global;
use std::fmt::Write;
use std::process::Abort;

/// Texts, and where the server of each is: host, port and base.
static ADDRESSES: [(&str, &str); 14] = [
    ("http://a:8002", "a 8002 "),
    ("http://b", "b 80 "),
    ("HTTP://B:80/up/", "b 80 /up"),
    ("http://[::1]:8002/x//", "[::1] 8002 /x/"),
    ("http://@h/", "h 80 "),
    ("http://h:0", "h 0 "),
    ("https://a", "none"),
    ("http://u@a", "none"),
    ("http://:p@a", "none"),
    ("http://a?", "none"),
    ("http://a/#f", "none"),
    ("http://", "none"),
    ("a:80", "none"),
    ("", "none"),
];

/// Adds where a server is.
fn push_server(rt: &impl Abort, line: &mut String, at: &UpstreamAt) {
    let host = at.host.as_str();
    let base = at.base.as_str();
    write!(line, "{host} {} {base}", at.port).expect(rt, "memory");
}

/// Where the server of a text is, as a line.
fn line_of(rt: &impl Abort, alloc: Global, text: &str) -> String {
    let mut line = String::new(alloc);
    match &read_address(alloc, text) {
        Ok(Some(at)) => push_server(rt, &mut line, at),
        Ok(None) => line.push_str("none").expect(rt, "memory"),
        Err(_) => panic!(rt; "memory"),
    }
    line
}

#[test]
fn an_address_is_a_url_of_http_with_a_host_alone(rt: HostRuntime) {
    for (text, wanted) in &ADDRESSES {
        let line = line_of(&rt, rt.alloc(), text);
        assert!(rt; line.as_str() == *wanted, "{line} at {text}");
    }
}
