//! Queries that a change names.
ghost use Rattle.std.specs.Prelude.{◌≡◌};
ghost use Rattle.disco_cache.specs.Kept.{doc_of, query_cmp, query_of, vip_query};
ghost use Rattle.disco_values.specs.Keys.{doc_cmp, kind_of, place_of};

use disco_values::{DocKey, Form, Key, Query};
use std::cmp::Ordering;

/// A query that a change names, borrowed from a record.
#[derive(Clone, Copy, Debug)]
pub(crate) enum QueryRef<'a> {
    Apps,
    Delta,
    App(&'a str),
    Vip(&'a str),
    Svip(&'a str),
    Instance(&'a Key),
}

impl<'a> QueryRef<'a> {
    /// A vip, or a secure one.
    pub(crate) fn of_vip(vip: &'a str, secure: bool) -> QueryRef<'a>
        ensures { query_of result ≡ vip_query secure vip.now }
    {
        if secure {
            QueryRef::Svip(vip)
        } else {
            QueryRef::Vip(vip)
        }
    }

    fn kind(self) -> u8
        ensures { result ≡ kind_of (query_of self.entry) }
    {
        match self {
            QueryRef::Apps => 0,
            QueryRef::Delta => 1,
            QueryRef::App(_) => 2,
            QueryRef::Vip(_) => 3,
            QueryRef::Svip(_) => 4,
            QueryRef::Instance(_) => 5,
        }
    }
}

fn kind(query: &Query) -> u8
    ensures { result ≡ kind_of query.now }
{
    match query {
        Query::Apps => 0,
        Query::Delta => 1,
        Query::App(_) => 2,
        Query::Vip(_) => 3,
        Query::Svip(_) => 4,
        Query::Instance(_) => 5,
    }
}

/// The order of a query and a borrowed one: by kind, then by names.
fn order(query: &Query, query_ref: QueryRef<'_>) -> Ordering
    ensures { result ≡ query_cmp query.now (query_of query_ref.entry) }
{
    match (query, query_ref) {
        (Query::App(name), QueryRef::App(other)) => name.as_str().cmp(other),
        (Query::Vip(name), QueryRef::Vip(other)) => name.as_str().cmp(other),
        (Query::Svip(name), QueryRef::Svip(other)) => name.as_str().cmp(other),
        (Query::Instance(key), QueryRef::Instance(other)) => key.compare(other),
        _ => kind(query).cmp(&query_ref.kind()),
    }
}

fn place(form: Form) -> u8
    ensures { result ≡ place_of form }
{
    match form {
        Form::Full => 0,
        Form::Compact => 1,
    }
}

/// The order of a key and that of a borrowed query in a form.
pub(crate) fn compare(key: &DocKey, query_ref: QueryRef<'_>, form: Form) -> Ordering
    ensures { result ≡ doc_cmp key.now (doc_of (query_of query_ref.entry) form) }
{
    order(&key.query, query_ref).then(place(key.form).cmp(&place(form)))
}
