//! Sessions, and what is written of them.

/// A base that states nothing, and the summary of a day.
pub const BARE_BASE: &[u8] = br##"base 265
<?xml version="1.0" encoding="UTF-8"?>
<rdf:RDF xmlns:rdf="http://www.w3.org/1999/02/22-rdf-syntax-ns#" xmlns:md="http://iec.ch/TC57/61970-552/ModelDescription/1#">
<md:FullModel rdf:about="urn:uuid:10000000-0000-4000-8000-000000000001">
</md:FullModel>
</rdf:RDF>
summary 2027-01-01
end
"##;

/// What is written of [`BARE_BASE`].
pub const BARE_BASE_REPLIES: &[u8] = br##"ok 0
summary commits 0 projects 0 statements 0
end 0
"##;

/// A base of one substation, and its assembly for a day.
pub const NORTH: &[u8] = br##"base 462
<?xml version="1.0" encoding="UTF-8"?>
<rdf:RDF xmlns:rdf="http://www.w3.org/1999/02/22-rdf-syntax-ns#" xmlns:md="http://iec.ch/TC57/61970-552/ModelDescription/1#" xmlns:cim="http://iec.ch/TC57/2013/CIM-schema-cim16#">
<md:FullModel rdf:about="urn:uuid:10000000-0000-4000-8000-000000000001">
</md:FullModel>
<cim:Substation rdf:ID="_20000000-0000-4000-8000-000000000001">
<cim:IdentifiedObject.name>North</cim:IdentifiedObject.name>
</cim:Substation>
</rdf:RDF>
assemble 2027-01-01
end
"##;

/// What is written of [`NORTH`].
pub const NORTH_REPLIES: &[u8] = br##"ok 0
document 614
<?xml version="1.0" encoding="UTF-8"?>
<rdf:RDF xmlns:rdf="http://www.w3.org/1999/02/22-rdf-syntax-ns#" xmlns:md="http://iec.ch/TC57/61970-552/ModelDescription/1#" xmlns:cim="http://iec.ch/TC57/2013/CIM-schema-cim16#">
<md:FullModel rdf:about="urn:uuid:951f375b-a314-58a5-9b24-6d000e98a5e7">
<md:Model.scenarioTime>2027-01-01T00:00:00Z</md:Model.scenarioTime>
<md:Model.Supersedes rdf:resource="urn:uuid:10000000-0000-4000-8000-000000000001"/>
</md:FullModel>
<cim:Substation rdf:ID="_20000000-0000-4000-8000-000000000001">
<cim:IdentifiedObject.name>North</cim:IdentifiedObject.name>
</cim:Substation>
</rdf:RDF>
end 0
"##;

/// A project that renames the substation, with the day before it and its day.
pub const RENAMED: &[u8] = br##"base 462
<?xml version="1.0" encoding="UTF-8"?>
<rdf:RDF xmlns:rdf="http://www.w3.org/1999/02/22-rdf-syntax-ns#" xmlns:md="http://iec.ch/TC57/61970-552/ModelDescription/1#" xmlns:cim="http://iec.ch/TC57/2013/CIM-schema-cim16#">
<md:FullModel rdf:about="urn:uuid:10000000-0000-4000-8000-000000000001">
</md:FullModel>
<cim:Substation rdf:ID="_20000000-0000-4000-8000-000000000001">
<cim:IdentifiedObject.name>North</cim:IdentifiedObject.name>
</cim:Substation>
</rdf:RDF>
file 2027-04-01 1078
<?xml version="1.0" encoding="UTF-8"?>
<rdf:RDF xmlns:rdf="http://www.w3.org/1999/02/22-rdf-syntax-ns#" xmlns:md="http://iec.ch/TC57/61970-552/ModelDescription/1#" xmlns:dm="http://iec.ch/TC57/61970-552/DifferenceModel/1#" xmlns:cim="http://iec.ch/TC57/2013/CIM-schema-cim16#">
<dm:DifferenceModel rdf:about="urn:uuid:30000000-0000-4000-8000-000000000001">
<md:Model.Supersedes rdf:resource="urn:uuid:10000000-0000-4000-8000-000000000001"/>
<dm:preconditions rdf:parseType="Statements">
<cim:Substation rdf:about="#_20000000-0000-4000-8000-000000000001">
</cim:Substation>
</dm:preconditions>
<dm:forwardDifferences rdf:parseType="Statements">
<rdf:Description rdf:about="#_20000000-0000-4000-8000-000000000001">
<cim:IdentifiedObject.name>North 2</cim:IdentifiedObject.name>
</rdf:Description>
</dm:forwardDifferences>
<dm:reverseDifferences rdf:parseType="Statements">
<rdf:Description rdf:about="#_20000000-0000-4000-8000-000000000001">
<cim:IdentifiedObject.name>North</cim:IdentifiedObject.name>
</rdf:Description>
</dm:reverseDifferences>
</dm:DifferenceModel>
</rdf:RDF>
assemble 2027-03-31
assemble 2027-04-01
end
"##;

/// What is written of [`RENAMED`].
pub const RENAMED_REPLIES: &[u8] = br##"ok 0
ok 1
document 614
<?xml version="1.0" encoding="UTF-8"?>
<rdf:RDF xmlns:rdf="http://www.w3.org/1999/02/22-rdf-syntax-ns#" xmlns:md="http://iec.ch/TC57/61970-552/ModelDescription/1#" xmlns:cim="http://iec.ch/TC57/2013/CIM-schema-cim16#">
<md:FullModel rdf:about="urn:uuid:156124ec-b50f-5a52-bc3d-099f96412da2">
<md:Model.scenarioTime>2027-03-31T00:00:00Z</md:Model.scenarioTime>
<md:Model.Supersedes rdf:resource="urn:uuid:10000000-0000-4000-8000-000000000001"/>
</md:FullModel>
<cim:Substation rdf:ID="_20000000-0000-4000-8000-000000000001">
<cim:IdentifiedObject.name>North</cim:IdentifiedObject.name>
</cim:Substation>
</rdf:RDF>
document 700
<?xml version="1.0" encoding="UTF-8"?>
<rdf:RDF xmlns:rdf="http://www.w3.org/1999/02/22-rdf-syntax-ns#" xmlns:md="http://iec.ch/TC57/61970-552/ModelDescription/1#" xmlns:cim="http://iec.ch/TC57/2013/CIM-schema-cim16#">
<md:FullModel rdf:about="urn:uuid:c0d06238-9022-5838-8811-53dfedcd6344">
<md:Model.scenarioTime>2027-04-01T00:00:00Z</md:Model.scenarioTime>
<md:Model.Supersedes rdf:resource="urn:uuid:10000000-0000-4000-8000-000000000001"/>
<md:Model.Supersedes rdf:resource="urn:uuid:30000000-0000-4000-8000-000000000001"/>
</md:FullModel>
<cim:Substation rdf:ID="_20000000-0000-4000-8000-000000000001">
<cim:IdentifiedObject.name>North 2</cim:IdentifiedObject.name>
</cim:Substation>
</rdf:RDF>
end 1
"##;

/// Two differences that do not fit: they take away a name that is not there, and add one that is.
pub const ANOTHER_NAME: &[u8] = br##"base 462
<?xml version="1.0" encoding="UTF-8"?>
<rdf:RDF xmlns:rdf="http://www.w3.org/1999/02/22-rdf-syntax-ns#" xmlns:md="http://iec.ch/TC57/61970-552/ModelDescription/1#" xmlns:cim="http://iec.ch/TC57/2013/CIM-schema-cim16#">
<md:FullModel rdf:about="urn:uuid:10000000-0000-4000-8000-000000000001">
</md:FullModel>
<cim:Substation rdf:ID="_20000000-0000-4000-8000-000000000001">
<cim:IdentifiedObject.name>North</cim:IdentifiedObject.name>
</cim:Substation>
</rdf:RDF>
file 2027-04-01 986
<?xml version="1.0" encoding="UTF-8"?>
<rdf:RDF xmlns:rdf="http://www.w3.org/1999/02/22-rdf-syntax-ns#" xmlns:md="http://iec.ch/TC57/61970-552/ModelDescription/1#" xmlns:dm="http://iec.ch/TC57/61970-552/DifferenceModel/1#" xmlns:cim="http://iec.ch/TC57/2013/CIM-schema-cim16#">
<dm:DifferenceModel rdf:about="urn:uuid:30000000-0000-4000-8000-000000000002">
<md:Model.Supersedes rdf:resource="urn:uuid:10000000-0000-4000-8000-000000000001"/>
<dm:preconditions rdf:parseType="Statements">
</dm:preconditions>
<dm:forwardDifferences rdf:parseType="Statements">
<rdf:Description rdf:about="#_20000000-0000-4000-8000-000000000001">
<cim:IdentifiedObject.name>Zed</cim:IdentifiedObject.name>
</rdf:Description>
</dm:forwardDifferences>
<dm:reverseDifferences rdf:parseType="Statements">
<rdf:Description rdf:about="#_20000000-0000-4000-8000-000000000001">
<cim:IdentifiedObject.name>Zed</cim:IdentifiedObject.name>
</rdf:Description>
</dm:reverseDifferences>
</dm:DifferenceModel>
</rdf:RDF>
file 2027-04-01 990
<?xml version="1.0" encoding="UTF-8"?>
<rdf:RDF xmlns:rdf="http://www.w3.org/1999/02/22-rdf-syntax-ns#" xmlns:md="http://iec.ch/TC57/61970-552/ModelDescription/1#" xmlns:dm="http://iec.ch/TC57/61970-552/DifferenceModel/1#" xmlns:cim="http://iec.ch/TC57/2013/CIM-schema-cim16#">
<dm:DifferenceModel rdf:about="urn:uuid:30000000-0000-4000-8000-000000000002">
<md:Model.Supersedes rdf:resource="urn:uuid:10000000-0000-4000-8000-000000000001"/>
<dm:preconditions rdf:parseType="Statements">
</dm:preconditions>
<dm:forwardDifferences rdf:parseType="Statements">
<rdf:Description rdf:about="#_20000000-0000-4000-8000-000000000001">
<cim:IdentifiedObject.name>North</cim:IdentifiedObject.name>
</rdf:Description>
</dm:forwardDifferences>
<dm:reverseDifferences rdf:parseType="Statements">
<rdf:Description rdf:about="#_20000000-0000-4000-8000-000000000001">
<cim:IdentifiedObject.name>North</cim:IdentifiedObject.name>
</rdf:Description>
</dm:reverseDifferences>
</dm:DifferenceModel>
</rdf:RDF>
end
"##;

/// What is written of [`ANOTHER_NAME`].
pub const ANOTHER_NAME_REPLIES: &[u8] = br##"ok 0
refused step 2027-04-01 30000000-0000-4000-8000-000000000002 reverse #_20000000-0000-4000-8000-000000000001 <http://iec.ch/TC57/2013/CIM-schema-cim16#IdentifiedObject.name> "Zed"
refused step 2027-04-01 30000000-0000-4000-8000-000000000002 forward #_20000000-0000-4000-8000-000000000001 <http://iec.ch/TC57/2013/CIM-schema-cim16#IdentifiedObject.name> "North"
end 0
"##;

/// A second project that takes away the name that the first took away.
pub const RENAMED_AGAIN: &[u8] = br##"base 462
<?xml version="1.0" encoding="UTF-8"?>
<rdf:RDF xmlns:rdf="http://www.w3.org/1999/02/22-rdf-syntax-ns#" xmlns:md="http://iec.ch/TC57/61970-552/ModelDescription/1#" xmlns:cim="http://iec.ch/TC57/2013/CIM-schema-cim16#">
<md:FullModel rdf:about="urn:uuid:10000000-0000-4000-8000-000000000001">
</md:FullModel>
<cim:Substation rdf:ID="_20000000-0000-4000-8000-000000000001">
<cim:IdentifiedObject.name>North</cim:IdentifiedObject.name>
</cim:Substation>
</rdf:RDF>
file 2027-04-01 1078
<?xml version="1.0" encoding="UTF-8"?>
<rdf:RDF xmlns:rdf="http://www.w3.org/1999/02/22-rdf-syntax-ns#" xmlns:md="http://iec.ch/TC57/61970-552/ModelDescription/1#" xmlns:dm="http://iec.ch/TC57/61970-552/DifferenceModel/1#" xmlns:cim="http://iec.ch/TC57/2013/CIM-schema-cim16#">
<dm:DifferenceModel rdf:about="urn:uuid:30000000-0000-4000-8000-000000000001">
<md:Model.Supersedes rdf:resource="urn:uuid:10000000-0000-4000-8000-000000000001"/>
<dm:preconditions rdf:parseType="Statements">
<cim:Substation rdf:about="#_20000000-0000-4000-8000-000000000001">
</cim:Substation>
</dm:preconditions>
<dm:forwardDifferences rdf:parseType="Statements">
<rdf:Description rdf:about="#_20000000-0000-4000-8000-000000000001">
<cim:IdentifiedObject.name>North 2</cim:IdentifiedObject.name>
</rdf:Description>
</dm:forwardDifferences>
<dm:reverseDifferences rdf:parseType="Statements">
<rdf:Description rdf:about="#_20000000-0000-4000-8000-000000000001">
<cim:IdentifiedObject.name>North</cim:IdentifiedObject.name>
</rdf:Description>
</dm:reverseDifferences>
</dm:DifferenceModel>
</rdf:RDF>
file 2027-04-01 992
<?xml version="1.0" encoding="UTF-8"?>
<rdf:RDF xmlns:rdf="http://www.w3.org/1999/02/22-rdf-syntax-ns#" xmlns:md="http://iec.ch/TC57/61970-552/ModelDescription/1#" xmlns:dm="http://iec.ch/TC57/61970-552/DifferenceModel/1#" xmlns:cim="http://iec.ch/TC57/2013/CIM-schema-cim16#">
<dm:DifferenceModel rdf:about="urn:uuid:30000000-0000-4000-8000-000000000003">
<md:Model.Supersedes rdf:resource="urn:uuid:10000000-0000-4000-8000-000000000001"/>
<dm:preconditions rdf:parseType="Statements">
</dm:preconditions>
<dm:forwardDifferences rdf:parseType="Statements">
<rdf:Description rdf:about="#_20000000-0000-4000-8000-000000000001">
<cim:IdentifiedObject.name>North 9</cim:IdentifiedObject.name>
</rdf:Description>
</dm:forwardDifferences>
<dm:reverseDifferences rdf:parseType="Statements">
<rdf:Description rdf:about="#_20000000-0000-4000-8000-000000000001">
<cim:IdentifiedObject.name>North</cim:IdentifiedObject.name>
</rdf:Description>
</dm:reverseDifferences>
</dm:DifferenceModel>
</rdf:RDF>
end
"##;

/// What is written of [`RENAMED_AGAIN`].
pub const RENAMED_AGAIN_REPLIES: &[u8] = br##"ok 0
ok 1
refused step 2027-04-01 30000000-0000-4000-8000-000000000003 reverse #_20000000-0000-4000-8000-000000000001 <http://iec.ch/TC57/2013/CIM-schema-cim16#IdentifiedObject.name> "North"
end 1
"##;

/// The assemblies for the first and the last day.
pub const FIRST_AND_LAST_DAY: &[u8] = br##"base 462
<?xml version="1.0" encoding="UTF-8"?>
<rdf:RDF xmlns:rdf="http://www.w3.org/1999/02/22-rdf-syntax-ns#" xmlns:md="http://iec.ch/TC57/61970-552/ModelDescription/1#" xmlns:cim="http://iec.ch/TC57/2013/CIM-schema-cim16#">
<md:FullModel rdf:about="urn:uuid:10000000-0000-4000-8000-000000000001">
</md:FullModel>
<cim:Substation rdf:ID="_20000000-0000-4000-8000-000000000001">
<cim:IdentifiedObject.name>North</cim:IdentifiedObject.name>
</cim:Substation>
</rdf:RDF>
assemble 1900-01-01
assemble 2999-12-31
end
"##;

/// What is written of [`FIRST_AND_LAST_DAY`].
pub const FIRST_AND_LAST_DAY_REPLIES: &[u8] = br##"ok 0
document 614
<?xml version="1.0" encoding="UTF-8"?>
<rdf:RDF xmlns:rdf="http://www.w3.org/1999/02/22-rdf-syntax-ns#" xmlns:md="http://iec.ch/TC57/61970-552/ModelDescription/1#" xmlns:cim="http://iec.ch/TC57/2013/CIM-schema-cim16#">
<md:FullModel rdf:about="urn:uuid:efbfc997-b6be-5210-8dd9-da580ad48513">
<md:Model.scenarioTime>1900-01-01T00:00:00Z</md:Model.scenarioTime>
<md:Model.Supersedes rdf:resource="urn:uuid:10000000-0000-4000-8000-000000000001"/>
</md:FullModel>
<cim:Substation rdf:ID="_20000000-0000-4000-8000-000000000001">
<cim:IdentifiedObject.name>North</cim:IdentifiedObject.name>
</cim:Substation>
</rdf:RDF>
document 614
<?xml version="1.0" encoding="UTF-8"?>
<rdf:RDF xmlns:rdf="http://www.w3.org/1999/02/22-rdf-syntax-ns#" xmlns:md="http://iec.ch/TC57/61970-552/ModelDescription/1#" xmlns:cim="http://iec.ch/TC57/2013/CIM-schema-cim16#">
<md:FullModel rdf:about="urn:uuid:200d63ff-2187-5fad-87f6-5e593f1ce88c">
<md:Model.scenarioTime>2999-12-31T00:00:00Z</md:Model.scenarioTime>
<md:Model.Supersedes rdf:resource="urn:uuid:10000000-0000-4000-8000-000000000001"/>
</md:FullModel>
<cim:Substation rdf:ID="_20000000-0000-4000-8000-000000000001">
<cim:IdentifiedObject.name>North</cim:IdentifiedObject.name>
</cim:Substation>
</rdf:RDF>
end 0
"##;
