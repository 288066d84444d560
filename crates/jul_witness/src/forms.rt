//! The three results and the two versions of their texts, by the word that a text begins with.
ghost use Rattle.std.specs.Prelude.{◌≡◌};
ghost use Rattle.jul_witness.specs.Forms.{heading_of, takes_dash, has_places, has_sources};

/// Which result a text has.
#[derive(Clone, Copy, Debug, PartialEq, Eq)]
pub(crate) enum Form {
    /// A core and a level for each vertex.
    Cores,
    /// A distance, hops and a parent for each vertex.
    Distances,
    /// A round and a set for each vertex.
    Cover,
}

/// What a text says before its columns.
#[derive(Clone, Copy, Debug, PartialEq, Eq)]
pub(crate) enum Version {
    /// The number of vertices.
    First,
    /// The numbers of vertices and of places, and for distances the sources. This is what is written.
    Second,
}

/// What the word in front of a text says.
#[derive(Clone, Copy)]
pub(crate) struct Heading {
    pub(crate) form: Form,
    pub(crate) version: Version,
}

/// What a word says, if it may stand in front of a text.
pub(crate) fn heading_by_word(word: &[u8]) -> Option<Heading>
    ensures { result ≡ heading_of word.now }
{
    let (form, version) = if word == b"Cores".as_slice() {
        (Form::Cores, Version::First)
    } else if word == b"Distances".as_slice() {
        (Form::Distances, Version::First)
    } else if word == b"Cover".as_slice() {
        (Form::Cover, Version::First)
    } else if word == b"Cores2".as_slice() {
        (Form::Cores, Version::Second)
    } else if word == b"Distances2".as_slice() {
        (Form::Distances, Version::Second)
    } else if word == b"Cover2".as_slice() {
        (Form::Cover, Version::Second)
    } else {
        return None;
    };
    Some(Heading { form, version })
}

/// Whether a minus sign may stand for `NONE`.
#[inline]
pub(crate) fn has_dashes(form: Form) -> bool
    ensures { result ≡ takes_dash form }
{
    match form {
        Form::Cores => false,
        Form::Distances | Form::Cover => true,
    }
}

/// Whether a text says the number of places.
pub(crate) fn says_places(version: Version) -> bool
    ensures { result ≡ has_places version }
{
    match version {
        Version::First => false,
        Version::Second => true,
    }
}

/// Whether a text names the sources.
pub(crate) fn names_sources(heading: Heading) -> bool
    ensures { result ≡ has_sources heading }
{
    match heading.form {
        Form::Distances => says_places(heading.version),
        Form::Cores | Form::Cover => false,
    }
}
