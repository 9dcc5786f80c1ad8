//! What an edit would do to a document, as a patch of moved lines, or why it is refused.
//!
//! What an edit does is defined in `mk_edit_language`, whose laws say what follows from it.
//! `mk_edit_parts` has the edits as Rust types, the line that each edit means, and the bytes of the
//! lines that edits write.
//!
//! - [`planning`]: `plan`, one call for all edits, and `plan_with`, for a caller who knows
//!   where the edit's line stands, or which windows of the document an edit of several lines concerns.
//!
//! The other modules are the crate's own, lowest first:
//!
//! - `moves`: the patches of edits whose causes are decided.
//! - `remove_rule`: the removal of a rule.
//! - `meant_recipe`: the recipe line that an edit means.
//! - `remove_recipe`: the removal of a recipe line.
//! - `set_recipe`: another command for a recipe line.
//! - `insertion`: where new lines go, and the causes of refusal that their places decide.
//! - `add_line`: new lines, planned: those of assignments and of rules.
//! - `add_recipe`: a new recipe line, planned.
//! - `lines_end`: what lines leave below them.
//! - `new_lines`: whole new lines: their text, and the lines that it has where it goes.
//! - `exchange_lines`: whole lines put in, taken out or exchanged, planned.
//! - `header`: the header in the line of a rule.
//! - `add_prereq`: a new prerequisite, planned.
//! - `remove_prereq`: a prerequisite taken out, planned.
//! - `replace_prereq`: a prerequisite put in the place of another, planned.
//! - `remove_assign`: the removal of an assignment.
//! - `assignment`: the assignment in its line.
//! - `value_change`: a change of a value, and what it does to the line of one assignment.
//! - `change_values_places`: the lines that a change of values changes and their places, noted.
//! - `change_values_survey`: what a change of values finds among the lines.
//! - `change_values_causes`: the causes of refusal of a change of values.
//! - `change_value`: a change of the value of one assignment, planned.
//! - `change_line`: a change of an assignment's line that is checked by reading, planned.
//! - `switch_line`: an assignment that becomes a comment, and a comment that becomes one again, planned.
//! - `change_values_patch`: the patch of a change of values whose causes are decided.
//! - `change_values`: a change of all values of a name, planned.
//! - `each_line_count`: the places of a line that an edit of several lines replaces, counted.
//! - `each_line_notes`: the lines that an edit of several lines changes and their places, noted.
//! - `each_line_survey`: what an edit of several lines finds among the lines.
//! - `each_line_causes`: the causes of refusal of an edit of several lines.
//! - `each_line_patch`: the patch of an edit of several lines, whose lines are checked by reading.
//! - `each_line`: an edit of several lines, planned.
//! - `rename_target_places`: the lines that a rename exchanges and their places, noted.
//! - `rename_target_effect`: what a rename finds among the lines and does to them.
//! - `rename_target_causes`: the causes of refusal of a rename.
//! - `rename_target_patch`: the patch of a rename whose causes are decided.
//! - `rename_target`: a rename, planned.
#![tactic(auto)]

mod add_line;
mod add_prereq;
mod add_recipe;
mod assignment;
mod change_line;
mod change_value;
mod change_values;
mod change_values_causes;
mod change_values_patch;
mod change_values_places;
mod change_values_survey;
mod each_line;
mod each_line_causes;
mod each_line_count;
mod each_line_notes;
mod each_line_patch;
mod each_line_survey;
mod exchange_lines;
mod header;
mod insertion;
mod lines_end;
mod meant_recipe;
mod moves;
mod new_lines;
pub mod planning;
mod remove_assign;
mod remove_prereq;
mod remove_recipe;
mod remove_rule;
mod rename_target;
mod rename_target_causes;
mod rename_target_effect;
mod rename_target_patch;
mod rename_target_places;
mod replace_prereq;
mod set_recipe;
mod switch_line;
mod value_change;

pub use mk_edit_language::{Detail, Edit, Field, Place, Refusal, RuleSeparator, Site, ValueChange};
pub use planning::{plan, plan_with};
