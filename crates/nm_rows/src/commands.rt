//! Sessions of all commands: revisions, other days, withdrawals, and what is told of the projects.
use crate::tests::{Outcome, run_words};
use nm_base::Status;
use nm_samples::RENAMED;
use std::alloc::Global;
use std::test::Fail;

/// The bytes of [`RENAMED`] up to the project that it files, and up to its base.
const FILED_LENGTH: usize = 1570;

const BASE_LENGTH: usize = 471;

/// A difference that changes nothing, in the place of the project's current one.
const REVISION: &[u8] =
    br##"<rdf:RDF xmlns:rdf="http://www.w3.org/1999/02/22-rdf-syntax-ns#" xmlns:md="http://iec.ch/TC57/61970-552/ModelDescription/1#" xmlns:dm="http://iec.ch/TC57/61970-552/DifferenceModel/1#"><dm:DifferenceModel rdf:about="urn:uuid:30000000-0000-4000-8000-000000000003"><md:Model.Supersedes rdf:resource="urn:uuid:30000000-0000-4000-8000-000000000001"/></dm:DifferenceModel></rdf:RDF>"##;

/// Another one, which supersedes the first model of the project alone.
const LATE_REVISION: &[u8] =
    br##"<rdf:RDF xmlns:rdf="http://www.w3.org/1999/02/22-rdf-syntax-ns#" xmlns:md="http://iec.ch/TC57/61970-552/ModelDescription/1#" xmlns:dm="http://iec.ch/TC57/61970-552/DifferenceModel/1#"><dm:DifferenceModel rdf:about="urn:uuid:30000000-0000-4000-8000-000000000005"><md:Model.Supersedes rdf:resource="urn:uuid:30000000-0000-4000-8000-000000000001"/></dm:DifferenceModel></rdf:RDF>"##;

/// What comes of a session that files the project, and goes on so.
fn behind_project(alloc: Global, parts: &[&[u8]]) -> Result<Outcome, Fail> {
    let mut stream = RENAMED[..FILED_LENGTH].to_vec(alloc)?;
    for part in parts {
        stream.extend_from_slice(part)?;
    }
    run_words(alloc, &["session"], &stream, &[], &[])
}

#[test]
fn a_log_is_the_stream_of_its_commands(rt: HostRuntime) -> Result<(), Fail> {
    let alloc = rt.alloc();
    let outcome = behind_project(alloc, &[b"log\nend\n"])?;
    let mut due = b"ok 0\nok 1\nlog 1574\n".to_vec(alloc)?;
    due.extend_from_slice(&RENAMED[..FILED_LENGTH])?;
    due.extend_from_slice(b"end\nend 1\n")?;
    assert_eq!(rt; outcome.written.as_slice(), due.as_slice());
    assert_eq!(rt; outcome.status, Status::Done);
    Ok(())
}

#[test]
fn a_project_is_withdrawn_and_filed_again(rt: HostRuntime) -> Result<(), Fail> {
    let alloc = rt.alloc();
    let parts: &[&[u8]] = &[
        b"withdraw 30000000-0000-4000-8000-000000000001\nprojects\nwithdraw 30000000-0000-4000-8000-000000000001\n",
        &RENAMED[BASE_LENGTH..FILED_LENGTH],
        b"redate 30000000-0000-4000-8000-000000000001 2027-05-01\nprojects\nend\n",
    ];
    let outcome = behind_project(alloc, parts)?;
    let due =
        b"ok 0\nok 1\nok 2\nprojects 0\nrefused unknown 30000000-0000-4000-8000-000000000001\nok 3\nok 4\nprojects 1\n30000000-0000-4000-8000-000000000001 2027-05-01 30000000-0000-4000-8000-000000000001\nend 4\n";
    assert_eq!(rt; outcome.written.as_slice(), due.as_slice());
    assert_eq!(rt; outcome.status, Status::Done);
    Ok(())
}

#[test]
fn a_project_is_revised(rt: HostRuntime) -> Result<(), Fail> {
    let alloc = rt.alloc();
    assert_eq!(rt; REVISION.len(), 376);
    assert_eq!(rt; LATE_REVISION.len(), 376);
    let parts: &[&[u8]] = &[
        b"revise 30000000-0000-4000-8000-000000000001 376\n",
        REVISION,
        b"projects\nrevise 30000000-0000-4000-8000-000000000001 376\n",
        LATE_REVISION,
        b"withdraw 30000000-0000-4000-8000-000000000003\nend\n",
    ];
    let outcome = behind_project(alloc, parts)?;
    let due =
        b"ok 0\nok 1\nok 2\nprojects 1\n30000000-0000-4000-8000-000000000001 2027-04-01 30000000-0000-4000-8000-000000000003\nrefused superseding 30000000-0000-4000-8000-000000000003\nrefused unknown 30000000-0000-4000-8000-000000000003\nend 2\n";
    assert_eq!(rt; outcome.written.as_slice(), due.as_slice());
    assert_eq!(rt; outcome.status, Status::Done);
    Ok(())
}

/// The object and the timeline of the substation that the project renames, and of a resource that
/// nothing names.
const OBJECT_REPLIES: &[u8] = br##"ok 0
ok 1
statements 2
#_20000000-0000-4000-8000-000000000001 <http://iec.ch/TC57/2013/CIM-schema-cim16#IdentifiedObject.name> "North 2"
#_20000000-0000-4000-8000-000000000001 <http://www.w3.org/1999/02/22-rdf-syntax-ns#type> <http://iec.ch/TC57/2013/CIM-schema-cim16#Substation>
lines 5
base #_20000000-0000-4000-8000-000000000001 <http://iec.ch/TC57/2013/CIM-schema-cim16#IdentifiedObject.name> "North"
2027-04-01 30000000-0000-4000-8000-000000000001 reverse #_20000000-0000-4000-8000-000000000001 <http://iec.ch/TC57/2013/CIM-schema-cim16#IdentifiedObject.name> "North"
2027-04-01 30000000-0000-4000-8000-000000000001 forward #_20000000-0000-4000-8000-000000000001 <http://iec.ch/TC57/2013/CIM-schema-cim16#IdentifiedObject.name> "North 2"
base #_20000000-0000-4000-8000-000000000001 <http://www.w3.org/1999/02/22-rdf-syntax-ns#type> <http://iec.ch/TC57/2013/CIM-schema-cim16#Substation>
2027-04-01 30000000-0000-4000-8000-000000000001 precondition #_20000000-0000-4000-8000-000000000001 <http://www.w3.org/1999/02/22-rdf-syntax-ns#type> <http://iec.ch/TC57/2013/CIM-schema-cim16#Substation>
statements 0
end 1
"##;

#[test]
fn a_resource_is_told_on_a_day_and_over_time(rt: HostRuntime) -> Result<(), Fail> {
    let alloc = rt.alloc();
    let questions =
        b"object 2027-04-01 #_20000000-0000-4000-8000-000000000001\ntimeline urn:uuid:20000000-0000-4000-8000-000000000001\nobject 2027-04-01 #nobody\nend\n";
    let outcome = behind_project(alloc, &[questions])?;
    assert_eq!(rt; outcome.written.as_slice(), OBJECT_REPLIES);
    assert_eq!(rt; outcome.status, Status::Done);
    Ok(())
}
