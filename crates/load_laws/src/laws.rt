//! Each law is a function that does nothing, and says what holds of all files.

ghost use Rattle.load_laws.specs.OneAnswer.{OneAnswer, OneAnswerIn, OneFront, OneResult};

/// As many packages of one project as are loaded first are the same; and where there are fewer of one than of another,
/// they are the first of these.
pub fn one_front()
    ensures { OneFront }
{}

/// A project has one result: its packages, or one rule that it breaks first, and never both.
pub fn one_result()
    ensures { OneResult }
{}

/// Where files are told, what is answered for a target is one: the program with its packages, files, trees and imports,
/// or one rule at one place. Only a failed device and want of memory are free.
pub fn one_answer()
    ensures told { OneAnswer }
    ensures project { OneAnswerIn }
{}
