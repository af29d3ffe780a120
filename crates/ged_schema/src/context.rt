// The places of the structure tables.

/// Where a structure stands: what may stand there depends on this alone. The context of HEAD and of a record is
/// `File`, and the row of a structure's tag names the context of its substructures (FamilySearch GEDCOM 7.0,
/// "Structures").
#[derive(Clone, Copy, Debug, PartialEq, Eq)]
pub enum Context {
    /// HEAD and the records.
    File,
    /// Below HEAD.
    Head,
    /// Below GEDC of HEAD.
    Gedc,
    /// Below SCHMA of HEAD.
    Schma,
    /// Below SOUR of HEAD.
    HeadSour,
    /// Below DATA of HEAD's SOUR.
    HeadData,
    /// Below PLAC of HEAD.
    HeadPlac,
    /// Below a DATE that is an exact date: that of HEAD, of DATA of HEAD's SOUR, of CHAN and of CREA.
    DateTime,
    /// Below DATE and SDATE of an event or attribute, and below DATE of a citation's DATA.
    DateMore,
    /// Below structures whose one substructure is PHRASE, such as AGE, ALIA, HUSB, WIFE and CHIL.
    Phrase,
    /// Below REFN and EXID.
    Typed,
    /// Below an INDI record.
    Indi,
    /// Below an individual's event or attribute whose TYPE may be left out.
    IndiFact,
    /// Below an individual's EVEN, FACT and IDNO, which need a TYPE.
    IndiNamed,
    /// Below BIRT and CHR of an individual.
    IndiBirth,
    /// Below ADOP of an individual.
    IndiAdop,
    /// Below FAMC of an ADOP.
    AdopFamc,
    /// Below FAMC of an individual.
    IndiFamc,
    /// Below FAMS of an individual.
    Notes,
    /// Below NAME of an individual.
    NameMore,
    /// Below TRAN of a NAME.
    NameTran,
    /// Below a FAM record.
    Fam,
    /// Below a family's event or attribute whose TYPE may be left out.
    FamFact,
    /// Below a family's EVEN and FACT, which need a TYPE.
    FamNamed,
    /// Below HUSB and WIFE of a family's event or attribute.
    FamAge,
    /// Below NO.
    NonEvent,
    /// Below CHAN.
    Chan,
    /// Below CREA.
    Crea,
    /// Below ASSO.
    Asso,
    /// Below a SOUR that cites a record.
    Cite,
    /// Below DATA of a citation.
    CiteData,
    /// Below NOTE.
    Note,
    /// Below structures that have no substructures of a standard tag.
    Leaf,
    /// Below structures that are carried as they are, those without a row among them: nothing is required here.
    Unchecked,
}
