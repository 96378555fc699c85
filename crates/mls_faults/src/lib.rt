//! Faults of the form of texts and of lines of scripts: what the tokens up to them say of all that begins alike.
#![tactic(auto)]

ghost use Rattle.mls_faults.specs.Faults.{FaultsOfFormComeFirst, FaultsOfFormStay, FaultsOfFormTellNone};
ghost use Rattle.mls_faults.specs.Faults.{FaultsOfLinesComeFirst, FaultsOfLinesStay};
ghost use Rattle.mls_parser.specs.Laws.{Under};

/// A fault of the form of a text stands at the first token that is refused. Each text that begins with the same tokens at
/// the same places, up to and with the one at the fault or one behind it, has the same fault; and none whose tokens begin
/// so tells anything, however it is laid out. A text of none but tokens before the fault has no fault of its form at any
/// of them. The same of faults of a line of a script.
pub fn faults_of_form_are_first()
    ensures stay { Under FaultsOfFormStay }
    ensures tell_none { Under FaultsOfFormTellNone }
    ensures come_first { Under FaultsOfFormComeFirst }
    ensures lines_stay { Under FaultsOfLinesStay }
    ensures lines_come_first { Under FaultsOfLinesComeFirst }
{}
