//! The edits of a session, in a call each.
ghost use Rattle.std.specs.Prelude.{◌≡◌, [], IfOk, None, false, true};
ghost use Rattle.mk_edit_language.specs.EditViews.{edit_of, place_of, site_of};
ghost use Rattle.mk_edit_language.specs.Edits as edits;
ghost use Rattle.mk_edit_language.specs.LineRuns.{block_lines};
ghost use Rattle.mk_edit_language.specs.declared.edit.Side.TheVariants.{Before, After};
ghost use Rattle.mk_session.specs.Applied.{IsApplied};

use super::Session;
use mk_class::Flavor;
use mk_edit::{Edit, Place, Refusal, RuleSeparator};
use mk_edit_language::Site;
use std::alloc::{AllocError, Allocator};

/// Makes edits, in a call each. A call copies its texts, makes the edit that the call of the same name of
/// [`Edit`], [`Place`] or [`Site`] makes, and hands it to [`Session::apply`]. An edit of a line by its
/// number is a value for `apply`, since [`Edit::nth`] gives it the number.
///
/// Each call has the errors of [`Session::apply`], and [`Refusal::NoMemory`] if there is no memory for
/// the copy of a text. No cause of a refusal is looked for then.
impl<A: Allocator + Copy> Session<A> {
    /// `set NAME VALUE`: makes the edit of [`Edit::set`].
    pub fn set(&mut self, name: &[u8], value: &[u8]) -> Result<(), Refusal>
        ensures { IsApplied (edits.ChangeValue (edits.One None) name.now (edits.Set value.now))
            result self.old self.new }
    {
        self.apply_made(Edit::set(self.alloc, name, value))
    }

    /// `set-if NAME OLD VALUE`: makes the edit of [`Edit::set_if`].
    pub fn set_if(&mut self, name: &[u8], old: &[u8], value: &[u8]) -> Result<(), Refusal>
        ensures { IsApplied
            (edits.ChangeValue (edits.One None) name.now (edits.SetIf old.now value.now))
            result self.old self.new }
    {
        self.apply_made(Edit::set_if(self.alloc, name, old, value))
    }

    /// `append NAME VALUE`: makes the edit of [`Edit::append`].
    pub fn append(&mut self, name: &[u8], value: &[u8]) -> Result<(), Refusal>
        ensures { IsApplied (edits.ChangeValue (edits.One None) name.now (edits.Append value.now))
            result self.old self.new }
    {
        self.apply_made(Edit::append(self.alloc, name, value))
    }

    /// `add NAME WORD`: makes the edit of [`Edit::add_word`].
    pub fn add_word(&mut self, name: &[u8], word: &[u8]) -> Result<(), Refusal>
        ensures { IsApplied (edits.ChangeValue (edits.One None) name.now (edits.Add word.now))
            result self.old self.new }
    {
        self.apply_made(Edit::add_word(self.alloc, name, word))
    }

    /// `drop NAME WORD`: makes the edit of [`Edit::drop_word`].
    pub fn drop_word(&mut self, name: &[u8], word: &[u8]) -> Result<(), Refusal>
        ensures { IsApplied (edits.ChangeValue (edits.One None) name.now (edits.Remove word.now))
            result self.old self.new }
    {
        self.apply_made(Edit::drop_word(self.alloc, name, word))
    }

    /// `prepend NAME VALUE`: makes the edit of [`Edit::prepend`].
    pub fn prepend(&mut self, name: &[u8], value: &[u8]) -> Result<(), Refusal>
        ensures { IsApplied (edits.ChangeLine None name.now (edits.Prepend value.now))
            result self.old self.new }
    {
        self.apply_made(Edit::prepend(self.alloc, name, value))
    }

    /// `replace NAME WORD VALUE`: makes the edit of [`Edit::replace_word`].
    pub fn replace_word(&mut self, name: &[u8], word: &[u8], value: &[u8]) -> Result<(), Refusal>
        ensures { IsApplied (edits.ChangeLine None name.now (edits.ReplaceWord word.now value.now))
            result self.old self.new }
    {
        self.apply_made(Edit::replace_word(self.alloc, name, word, value))
    }

    /// `add-before NAME WORD NEW`: makes the edit of [`Edit::add_before`].
    pub fn add_before(&mut self, name: &[u8], word: &[u8], new: &[u8]) -> Result<(), Refusal>
        ensures { IsApplied
            (edits.ChangeLine None name.now (edits.InsertWord Before word.now new.now))
            result self.old self.new }
    {
        self.apply_made(Edit::add_before(self.alloc, name, word, new))
    }

    /// `add-after NAME WORD NEW`: makes the edit of [`Edit::add_after`].
    pub fn add_after(&mut self, name: &[u8], word: &[u8], new: &[u8]) -> Result<(), Refusal>
        ensures { IsApplied
            (edits.ChangeLine None name.now (edits.InsertWord After word.now new.now))
            result self.old self.new }
    {
        self.apply_made(Edit::add_after(self.alloc, name, word, new))
    }

    /// `subst NAME FROM TO`: makes the edit of [`Edit::substitute`].
    pub fn substitute(&mut self, name: &[u8], from: &[u8], to: &[u8]) -> Result<(), Refusal>
        ensures { IsApplied (edits.ChangeLine None name.now (edits.Substitute from.now to.now))
            result self.old self.new }
    {
        self.apply_made(Edit::substitute(self.alloc, name, from, to))
    }

    /// `operator NAME OP`: makes the edit of [`Edit::operator`].
    pub fn operator(&mut self, name: &[u8], operator: Flavor) -> Result<(), Refusal>
        ensures { IsApplied (edits.ChangeLine None name.now (edits.SetOperator operator))
            result self.old self.new }
    {
        self.apply_made(Edit::operator(self.alloc, name, operator))
    }

    /// `all set NAME VALUE`: makes the edit of [`Edit::all_set`].
    pub fn all_set(&mut self, name: &[u8], value: &[u8]) -> Result<(), Refusal>
        ensures { IsApplied (edits.ChangeValue edits.Every name.now (edits.Set value.now))
            result self.old self.new }
    {
        self.apply_made(Edit::all_set(self.alloc, name, value))
    }

    /// `all set-if NAME OLD VALUE`: makes the edit of [`Edit::all_set_if`].
    pub fn all_set_if(&mut self, name: &[u8], old: &[u8], value: &[u8]) -> Result<(), Refusal>
        ensures { IsApplied (edits.ChangeValue edits.Every name.now (edits.SetIf old.now value.now))
            result self.old self.new }
    {
        self.apply_made(Edit::all_set_if(self.alloc, name, old, value))
    }

    /// `all append NAME VALUE`: makes the edit of [`Edit::all_append`].
    pub fn all_append(&mut self, name: &[u8], value: &[u8]) -> Result<(), Refusal>
        ensures { IsApplied (edits.ChangeValue edits.Every name.now (edits.Append value.now))
            result self.old self.new }
    {
        self.apply_made(Edit::all_append(self.alloc, name, value))
    }

    /// `all add NAME WORD`: makes the edit of [`Edit::all_add_word`].
    pub fn all_add_word(&mut self, name: &[u8], word: &[u8]) -> Result<(), Refusal>
        ensures { IsApplied (edits.ChangeValue edits.Every name.now (edits.Add word.now))
            result self.old self.new }
    {
        self.apply_made(Edit::all_add_word(self.alloc, name, word))
    }

    /// `all drop NAME WORD`: makes the edit of [`Edit::all_drop_word`].
    pub fn all_drop_word(&mut self, name: &[u8], word: &[u8]) -> Result<(), Refusal>
        ensures { IsApplied (edits.ChangeValue edits.Every name.now (edits.Remove word.now))
            result self.old self.new }
    {
        self.apply_made(Edit::all_drop_word(self.alloc, name, word))
    }

    /// `all prepend NAME VALUE`: makes the edit of [`Edit::all_prepend`].
    pub fn all_prepend(&mut self, name: &[u8], value: &[u8]) -> Result<(), Refusal>
        ensures { IsApplied (edits.EachLine (edits.ChangeEach name.now (edits.Prepend value.now)))
            result self.old self.new }
    {
        self.apply_made(Edit::all_prepend(self.alloc, name, value))
    }

    /// `all replace NAME WORD VALUE`: makes the edit of [`Edit::all_replace_word`].
    pub fn all_replace_word(
        &mut self,
        name: &[u8],
        word: &[u8],
        value: &[u8],
    ) -> Result<(), Refusal>
        ensures { IsApplied
            (edits.EachLine (edits.ChangeEach name.now (edits.ReplaceWord word.now value.now)))
            result self.old self.new }
    {
        self.apply_made(Edit::all_replace_word(self.alloc, name, word, value))
    }

    /// `all subst NAME FROM TO`: makes the edit of [`Edit::all_substitute`].
    pub fn all_substitute(&mut self, name: &[u8], from: &[u8], to: &[u8]) -> Result<(), Refusal>
        ensures { IsApplied
            (edits.EachLine (edits.ChangeEach name.now (edits.Substitute from.now to.now)))
            result self.old self.new }
    {
        self.apply_made(Edit::all_substitute(self.alloc, name, from, to))
    }

    /// `all operator NAME OP`: makes the edit of [`Edit::all_operator`].
    pub fn all_operator(&mut self, name: &[u8], operator: Flavor) -> Result<(), Refusal>
        ensures { IsApplied (edits.EachLine (edits.ChangeEach name.now (edits.SetOperator operator)))
            result self.old self.new }
    {
        self.apply_made(Edit::all_operator(self.alloc, name, operator))
    }

    /// `values-subst FROM TO`: makes the edit of [`Edit::values_substitute`].
    pub fn values_substitute(&mut self, from: &[u8], to: &[u8]) -> Result<(), Refusal>
        ensures { IsApplied (edits.EachLine (edits.SubstValues from.now to.now))
            result self.old self.new }
    {
        self.apply_made(Edit::values_substitute(self.alloc, from, to))
    }

    /// `recipe-subst TARGET FROM TO`: makes the edit of [`Edit::recipe_substitute`].
    pub fn recipe_substitute(
        &mut self,
        target: &[u8],
        from: &[u8],
        to: &[u8],
    ) -> Result<(), Refusal>
        ensures { IsApplied (edits.EachLine (edits.SubstRecipe None target.now from.now to.now))
            result self.old self.new }
    {
        self.apply_made(Edit::recipe_substitute(self.alloc, target, from, to))
    }

    /// `recipes-subst FROM TO`: makes the edit of [`Edit::recipes_substitute`].
    pub fn recipes_substitute(&mut self, from: &[u8], to: &[u8]) -> Result<(), Refusal>
        ensures { IsApplied (edits.EachLine (edits.SubstRecipes from.now to.now))
            result self.old self.new }
    {
        self.apply_made(Edit::recipes_substitute(self.alloc, from, to))
    }

    /// `unset NAME`: makes the edit of [`Edit::unset`].
    pub fn unset(&mut self, name: &[u8]) -> Result<(), Refusal>
        ensures { IsApplied (edits.RemoveLines (edits.OfAssign None name.now))
            result self.old self.new }
    {
        self.apply_made(Edit::unset(self.alloc, name))
    }

    /// `comment-out NAME`: makes the edit of [`Edit::comment_out`].
    pub fn comment_out(&mut self, name: &[u8]) -> Result<(), Refusal>
        ensures { IsApplied (edits.SwitchLine edits.CommentOut None name.now)
            result self.old self.new }
    {
        self.apply_made(Edit::comment_out(self.alloc, name))
    }

    /// `uncomment NAME`: makes the edit of [`Edit::uncomment`].
    pub fn uncomment(&mut self, name: &[u8]) -> Result<(), Refusal>
        ensures { IsApplied (edits.SwitchLine edits.Uncomment None name.now)
            result self.old self.new }
    {
        self.apply_made(Edit::uncomment(self.alloc, name))
    }

    /// `assign PLACE NAME OP VALUE`: makes the edit of [`Place::assign`].
    pub fn assign(
        &mut self,
        place: Place<A>,
        name: &[u8],
        flavor: Flavor,
        value: &[u8],
    ) -> Result<(), Refusal>
        ensures { IsApplied
            (edits.AddLine (place_of place) (edits.NewAssign name.now flavor value.now))
            result self.old self.new }
    {
        self.apply_made(place.assign(self.alloc, name, flavor, value))
    }

    /// `rule PLACE TARGETS SEP PREREQS`: makes the edit of [`Place::rule`].
    pub fn rule(
        &mut self,
        place: Place<A>,
        targets: &[u8],
        separator: RuleSeparator,
        prereqs: &[u8],
    ) -> Result<(), Refusal>
        ensures { IsApplied
            (edits.AddLine (place_of place) (edits.NewRule targets.now separator prereqs.now))
            result self.old self.new }
    {
        self.apply_made(place.rule(self.alloc, targets, separator, prereqs))
    }

    /// `unrule TARGET`: makes the edit of [`Edit::unrule`].
    pub fn unrule(&mut self, target: &[u8]) -> Result<(), Refusal>
        ensures { IsApplied (edits.RemoveLines (edits.OfRule None target.now))
            result self.old self.new }
    {
        self.apply_made(Edit::unrule(self.alloc, target))
    }

    /// `depend TARGET WORD`: makes the edit of [`Edit::depend`].
    pub fn depend(&mut self, target: &[u8], word: &[u8]) -> Result<(), Refusal>
        ensures { IsApplied (edits.ChangePrereqs None target.now (edits.AddPrereq false word.now))
            result self.old self.new }
    {
        self.apply_made(Edit::depend(self.alloc, target, word))
    }

    /// `depend-order TARGET WORD`: makes the edit of [`Edit::depend_order`].
    pub fn depend_order(&mut self, target: &[u8], word: &[u8]) -> Result<(), Refusal>
        ensures { IsApplied (edits.ChangePrereqs None target.now (edits.AddPrereq true word.now))
            result self.old self.new }
    {
        self.apply_made(Edit::depend_order(self.alloc, target, word))
    }

    /// `undepend TARGET WORD`: makes the edit of [`Edit::undepend`].
    pub fn undepend(&mut self, target: &[u8], word: &[u8]) -> Result<(), Refusal>
        ensures { IsApplied (edits.ChangePrereqs None target.now (edits.RemovePrereq word.now))
            result self.old self.new }
    {
        self.apply_made(Edit::undepend(self.alloc, target, word))
    }

    /// `depend-replace TARGET OLD NEW`: makes the edit of [`Edit::depend_replace`].
    pub fn depend_replace(&mut self, target: &[u8], old: &[u8], new: &[u8]) -> Result<(), Refusal>
        ensures { IsApplied (edits.ChangePrereqs None target.now (edits.ReplacePrereq old.now new.now))
            result self.old self.new }
    {
        self.apply_made(Edit::depend_replace(self.alloc, target, old, new))
    }

    /// `recipe TARGET LINE`: makes the edit of [`Edit::recipe`].
    pub fn recipe(&mut self, target: &[u8], line: &[u8]) -> Result<(), Refusal>
        ensures { IsApplied (edits.AddRecipe None target.now edits.Last line.now)
            result self.old self.new }
    {
        self.apply_made(Edit::recipe(self.alloc, target, line))
    }

    /// `recipe-insert TARGET K LINE`: makes the edit of [`Edit::recipe_insert`].
    pub fn recipe_insert(&mut self, target: &[u8], number: u32, line: &[u8]) -> Result<(), Refusal>
        ensures { IsApplied (edits.AddRecipe None target.now (edits.At number) line.now)
            result self.old self.new }
    {
        self.apply_made(Edit::recipe_insert(self.alloc, target, number, line))
    }

    /// `recipe-set TARGET K LINE`: makes the edit of [`Edit::recipe_set`].
    pub fn recipe_set(&mut self, target: &[u8], number: u32, line: &[u8]) -> Result<(), Refusal>
        ensures { IsApplied (edits.SetRecipe None target.now (edits.ByNumber number) line.now)
            result self.old self.new }
    {
        self.apply_made(Edit::recipe_set(self.alloc, target, number, line))
    }

    /// `recipe-del TARGET K`: makes the edit of [`Edit::recipe_del`].
    pub fn recipe_del(&mut self, target: &[u8], number: u32) -> Result<(), Refusal>
        ensures { IsApplied
            (edits.RemoveLines (edits.OfRecipe None target.now (edits.ByNumber number)))
            result self.old self.new }
    {
        self.apply_made(Edit::recipe_del(self.alloc, target, number))
    }

    /// `recipe-replace TARGET OLD LINE`: makes the edit of [`Edit::recipe_replace`].
    pub fn recipe_replace(&mut self, target: &[u8], old: &[u8], line: &[u8]) -> Result<(), Refusal>
        ensures { IsApplied (edits.SetRecipe None target.now (edits.ByText old.now) line.now)
            result self.old self.new }
    {
        self.apply_made(Edit::recipe_replace(self.alloc, target, old, line))
    }

    /// `recipe-remove TARGET OLD`: makes the edit of [`Edit::recipe_remove`].
    pub fn recipe_remove(&mut self, target: &[u8], old: &[u8]) -> Result<(), Refusal>
        ensures { IsApplied
            (edits.RemoveLines (edits.OfRecipe None target.now (edits.ByText old.now)))
            result self.old self.new }
    {
        self.apply_made(Edit::recipe_remove(self.alloc, target, old))
    }

    /// `rename OLD NEW`: makes the edit of [`Edit::rename`].
    pub fn rename(&mut self, old: &[u8], new: &[u8]) -> Result<(), Refusal>
        ensures { IsApplied (edits.RenameTarget old.now new.now)
            result self.old self.new }
    {
        self.apply_made(Edit::rename(self.alloc, old, new))
    }

    /// `insert PLACE BLOCK`: makes the edit of [`Site::insert`].
    pub fn insert(&mut self, site: Site<A>, block: &[u8]) -> Result<(), Refusal>
        ensures { IsApplied (edits.ExchangeLines (site_of site) (block_lines block.now))
            result self.old self.new }
    {
        self.apply_made(site.insert(self.alloc, block))
    }

    /// `line-replace OLD BLOCK`: makes the edit of [`Edit::line_replace`].
    pub fn line_replace(&mut self, old: &[u8], block: &[u8]) -> Result<(), Refusal>
        ensures { IsApplied
            (edits.ExchangeLines (edits.OfRun None (block_lines old.now)) (block_lines block.now))
            result self.old self.new }
    {
        self.apply_made(Edit::line_replace(self.alloc, old, block))
    }

    /// `line-remove OLD`: makes the edit of [`Edit::line_remove`].
    pub fn line_remove(&mut self, old: &[u8]) -> Result<(), Refusal>
        ensures { IsApplied (edits.ExchangeLines (edits.OfRun None (block_lines old.now)) [])
            result self.old self.new }
    {
        self.apply_made(Edit::line_remove(self.alloc, old))
    }

    /// `rule-replace TARGET BLOCK`: makes the edit of [`Edit::rule_replace`].
    pub fn rule_replace(&mut self, target: &[u8], block: &[u8]) -> Result<(), Refusal>
        ensures { IsApplied
            (edits.ExchangeLines (edits.OfRuleRun None target.now) (block_lines block.now))
            result self.old self.new }
    {
        self.apply_made(Edit::rule_replace(self.alloc, target, block))
    }

    /// `rule-remove TARGET`: makes the edit of [`Edit::rule_remove`].
    pub fn rule_remove(&mut self, target: &[u8]) -> Result<(), Refusal>
        ensures { IsApplied (edits.ExchangeLines (edits.OfRuleRun None target.now) [])
            result self.old self.new }
    {
        self.apply_made(Edit::rule_remove(self.alloc, target))
    }

    // Makes an edit, if there was memory to make it of its texts.
    fn apply_made(&mut self, edit: Result<Edit<A>, AllocError>) -> Result<(), Refusal>
        ensures { (e : edits.Edit) → IfOk edit (λ made. edit_of made ≡ e)
            → IsApplied e result self.old self.new }
    {
        match edit {
            Ok(edit) => self.apply(&edit),
            Err(_) => Err(Refusal::NoMemory),
        }
    }
}
