//! The sheet of samples: what small networks, claims, headways and calls come to, proved from the definitions that the
//! contracts use.

#![tactic(auto)]

ghost use Rattle.sheet.specs.Sheet.{Sheet};

/// Every sample of the sheet is right.
pub fn samples_hold()
    ensures { Sheet }
{}
