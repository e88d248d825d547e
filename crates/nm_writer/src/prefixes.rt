// The namespaces that a canonical document declares, and their prefixes (Namespaces in XML).
ghost use Rattle.nm_ident.specs.QualifiedName.{QualifiedName};
ghost use Rattle.nm_writer.specs.Canonical.{declaration, declarations, tag_of};
ghost use Rattle.nm_writer.specs.Namespaces.{cim_place, is_rdf, numbered_prefix, prefix_at, prefix_of, prefixes_of, with_namespace, IsPlaceOf};
ghost use Rattle.nm_writer.specs.Namespaces as spec;
ghost use Rattle.std.specs.Prelude.{◌≡◌, ◌+◌, ◌<◌, ◌^◌, [], ◌++◌, IfOk, OnOk};

use crate::lines::append_all;
use nm_ident::{NoMemory, RDF_NAMESPACE, Text};
use nm_text::append_escaped_attribute;
use std::alloc::Global;
use std::marker::Model;

/// What CIM's own namespaces begin with.
const COMMITTEE: &[u8] = b"http://iec.ch/TC57/";

/// As many bytes as most tags fit in.
const USUAL_TAG: usize = 64;

/// Whether this is RDF's namespace, which every document declares.
pub fn is_rdf(ns: &[u8]) -> bool
    ensures { result ≡ is_rdf ns.now }
{
    ns == RDF_NAMESPACE
}

/// Whether this is a namespace of the committee, as CIM's own are.
pub fn is_of_committee(ns: &[u8]) -> bool
    ensures { result ≡ spec.is_of_committee ns.now }
{
    ns.starts_with(COMMITTEE)
}

/// Namespaces in the order of their bytes, each once, without RDF's.
#[derive(Drop)]
pub struct Namespaces {
    texts: Vec<Text>,
}

impl Model for Namespaces {
    ghost use Rattle.std.specs.Prelude.{ℕ, List};
    ghost use Rattle.std.specs.List.Sorted.{IsStrictlySortedBy};
    ghost use Rattle.nm_ident.specs.Order.{text_cmp};

    ghost Value = { List (List ℕ) };

    ghost view = { λ namespaces. namespaces.texts.items };

    ghost invariant = { λ namespaces. IsStrictlySortedBy text_cmp namespaces.texts.items };
}

impl Namespaces {
    /// No namespace.
    pub fn new(alloc: Global) -> Namespaces
        ensures { result ≡ [] }
    {
        Namespaces {
            texts: Vec::new(alloc),
        }
    }

    fn as_slice(&self) -> &[Text]
        ensures { result.now ≡ self.now }
    {
        &self.texts
    }

    /// Adds a namespace, where it is new and is not RDF's.
    pub fn add(&mut self, alloc: Global, ns: &[u8]) -> Result<(), NoMemory>
        ensures { OnOk result (self.new ≡ with_namespace self.old ns.now) }
    {
        if is_rdf(ns) {
            return Ok(());
        }
        if let Err(place) = self.place_of(ns) {
            let text = Text::of_slice(alloc, ns)?;
            self.texts.insert(place, text)?;
        }
        Ok(())
    }

    /// The place of a namespace, or the one at which it would stand.
    fn place_of(&self, ns: &[u8]) -> Result<usize, usize>
        ensures { IsPlaceOf self.now ns.now result }
    {
        self.texts.binary_search_by(|text| text.as_slice().cmp(ns))
    }

    /// The place of the namespace whose prefix is `cim`.
    fn cim_place(&self) -> Option<usize>
        ensures { result ≡ cim_place self.now }
    {
        self.texts
            .iter()
            .position(|ns| is_of_committee(ns.as_slice()))
    }

    /// The prefix of each namespace.
    fn prefixes(&self, alloc: Global) -> Result<Vec<Text>, NoMemory>
        ensures { IfOk result (λ prefixes. prefixes.items ≡ prefixes_of self.now) }
    {
        let cim = self.cim_place();
        let mut prefixes = Vec::with_capacity(alloc, self.texts.len())?;
        for place in 0..self.texts.len() {
            prefixes.push(prefix_at(alloc, cim, place)?)?;
        }
        Ok(prefixes)
    }
}

/// The declared namespaces, and the prefix of each.
#[derive(Drop)]
pub struct Prefixes {
    namespaces: Namespaces,
    prefixes: Vec<Text>,
}

impl Model for Prefixes {
    ghost use Rattle.std.specs.Prelude.{◌≡◌, ℕ, List};
    ghost use Rattle.nm_writer.specs.Namespaces.{prefixes_of};

    ghost Value = { List (List ℕ) };

    ghost view = { λ prefixes. prefixes.namespaces };

    ghost invariant = { λ prefixes. prefixes.prefixes.items ≡ prefixes_of prefixes.namespaces };
}

impl Prefixes {
    /// These namespaces with their prefixes.
    pub fn new(alloc: Global, namespaces: Namespaces) -> Result<Prefixes, NoMemory>
        ensures { IfOk result (λ prefixes. prefixes ≡ namespaces) }
    {
        let prefixes = namespaces.prefixes(alloc)?;
        Ok(Prefixes {
            namespaces,
            prefixes,
        })
    }

    /// The prefix of a namespace that is declared, or RDF's.
    fn prefix_of(&self, ns: &[u8]) -> &[u8]
        ensures { result.now ≡ prefix_of self.now ns.now }
    {
        if is_rdf(ns) {
            return b"rdf";
        }
        match self.namespaces.place_of(ns) {
            Ok(place) => self.prefixes[place].as_slice(),
            Err(_) => b"",
        }
    }

    /// The tag of a name: its prefix, `:` and its local name.
    pub fn tag(&self, alloc: Global, ns: &[u8], local: &[u8]) -> Result<Vec<u8>, NoMemory>
        ensures { IfOk result (λ tag. tag.items ≡ tag_of self.now (record { ns = ns.now; local = local.now })) }
    {
        let mut tag = Vec::with_capacity(alloc, USUAL_TAG)?;
        append_all(&mut tag, &[self.prefix_of(ns), b":", local])?;
        Ok(tag)
    }

    /// Appends the declarations of the namespaces.
    pub fn append_declarations(&self, out: &mut Vec<u8>) -> Result<(), NoMemory>
        ensures { OnOk result (out.new.items ≡ out.old.items ++ declarations self.now) }
    {
        for (ns, prefix) in self.namespaces.as_slice().iter().zip(&self.prefixes) {
            append_declaration(out, prefix.as_slice(), ns.as_slice())?;
        }
        Ok(())
    }
}

/// Appends the declaration of a namespace.
fn append_declaration(out: &mut Vec<u8>, prefix: &[u8], ns: &[u8]) -> Result<(), NoMemory>
    ensures { OnOk result (out.new.items ≡ out.old.items ++ declaration prefix.now ns.now) }
{
    append_all(out, &[b" xmlns:", prefix, b"=\""])?;
    append_escaped_attribute(out, ns)?;
    append_all(out, &[b"\""])
}

/// The prefix of the namespace at a place: `cim`, or `n` and a number that counts the others.
fn prefix_at(alloc: Global, cim: Option<usize>, place: usize) -> Result<Text, NoMemory>
    requires { place + 1 < 2 ^ 64 }
    ensures { IfOk result (λ prefix. prefix ≡ prefix_at cim place) }
{
    match cim {
        Some(cim) if place == cim => Text::of_slice(alloc, b"cim"),
        Some(cim) if place > cim => numbered(alloc, place),
        _ => numbered(alloc, place + 1),
    }
}

fn numbered(alloc: Global, number: usize) -> Result<Text, NoMemory>
    ensures { IfOk result (λ prefix. prefix ≡ numbered_prefix number) }
{
    let mut prefix = Vec::new(alloc);
    let digits = number.to_string(alloc)?;
    append_all(&mut prefix, &[b"n", digits.as_bytes()])?;
    Ok(Text::of_list(prefix))
}
