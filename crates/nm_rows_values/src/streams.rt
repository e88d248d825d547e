//! Generated streams.
ghost use Rattle.nm_gen.specs.Limits.{most_projects};
ghost use Rattle.std.specs.Prelude.{◌≤◌};

use nm_gen::{MOST_PROJECTS, generate};
use nm_ident::NoMemory;
use sha1::Sha1;
use std::alloc::Global;

/// The length of a stream, and its SHA-1.
fn digest_of(alloc: Global, projects: u32, seed: u32) -> Result<String, NoMemory>
    requires some { 1 ≤ projects }
    requires few { projects ≤ most_projects }
{
    let stream = generate(alloc, projects, seed)?;
    let digest = hex::encode(alloc, &Sha1::digest(&stream))?;
    format!(in alloc; "{} {}", stream.len(), digest)
}

fn is_stream(alloc: Global, projects: u32, seed: u32, digest: &str) -> Result<bool, NoMemory>
    requires some { 1 ≤ projects }
    requires few { projects ≤ most_projects }
{
    Ok(digest_of(alloc, projects, seed)?.as_str() == digest)
}

/// The streams are those that another program wrote by the same rules.
#[test]
fn streams_are_those_of_another_program(rt: HostRuntime) -> Result<(), NoMemory> {
    let alloc = rt.alloc();
    let least = "286503 4baec1c54e9be556f463d7a4f2b8c3dfe355b457";
    assert!(rt; is_stream(alloc, 1, 0, least)?);
    let small = "310608 993e47a5bbea179956f76ce7e5d945061f4814a6";
    assert!(rt; is_stream(alloc, 20, 7, small)?);
    let larger = "539605 e81fe3dac1a214858e36afc53c91407ca541d394";
    assert!(rt; is_stream(alloc, 200, 7, larger)?);
    let last_seed = "305535 fe57eec64ca5b5d6caa24211bb3eeb23a97604e1";
    assert!(rt; is_stream(alloc, 16, 4_294_967_295, last_seed)?);
    let most = "2834966 8028694170dd66fbe78011b08073eef144393a3f";
    assert!(rt; is_stream(alloc, MOST_PROJECTS, 7, most)?);
    Ok(())
}
