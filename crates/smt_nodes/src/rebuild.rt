// Types of the program, made again of their nodes.
ghost use Rattle.std.specs.Prelude.{◌≡◌, ◌<◌, IfOk, IsTrue, Some};
ghost use Rattle.law_texts.specs.SharedTexts.{texts};
ghost use Rattle.law_terms.specs.Meanings.{all_found, meanings};
ghost use Rattle.law_terms.specs.Nodes.{TypeMeaning};
ghost use Rattle.law_terms.specs.Parts.{types_in, attribute_names};
ghost use Rattle.law_terms.specs.Plain.{AttributeTypes, RecordType};
ghost use Rattle.law_terms.specs.ValueOrder.{ascends, text_cmp};
ghost use Rattle.smt_nodes.specs.Kinds.{is_type_at};
ghost use Rattle.smt_nodes.specs.View.{place_of, places_of};
ghost use Rattle.std.specs.List.{AllByRecursion};
ghost use Rattle.smt_term.specs.View.{plain_type};
ghost use Rattle.smt_term.specs.TypeView.{BuildsType};

use crate::interner::Interner;
use crate::{Label, NodeId};
use smt_term::{Attr, TermError, TermType, TypeMap};
use smt_text::share_text;

impl Interner {
    ghost use Rattle.smt_nodes.specs.Interned.{meaning_in, nodes_of};

    /// The type for which a number stands, made again. What nodes share is not shared in it.
    ///
    /// # Errors
    /// `Memory`, where there is none for the type.
    #[cycle(rebuild)]
    pub fn type_at(&self, id: NodeId) -> Result<TermType, TermError>
        requires { IsTrue (is_type_at (meaning_in self.now id)) }
        ensures { IfOk result (λ ty. meaning_in self.now id ≡ Some (TypeMeaning (plain_type ty))) }
    {
        let parts = self.parts(id);
        match self.label(id) {
            Some(Label::TOption) => TermType::option_of(self.alloc, self.type_at(parts[0])?),
            Some(Label::TBitvec(width)) => Ok(TermType::Bitvec { n: *width }),
            Some(Label::TBool) => Ok(TermType::Bool),
            Some(Label::TEntity(ety)) => Ok(TermType::Entity { ety: ety.share()? }),
            Some(Label::TExt(xty)) => Ok(TermType::Ext { xty: *xty }),
            Some(Label::TString) => Ok(TermType::String),
            Some(Label::TRecord(names)) => self.record_type_at(id, names.items(), parts),
            Some(Label::TSet) => TermType::set_of(self.alloc, self.type_at(parts[0])?),
            // A type has no other label.
            _ => unreachable!(),
        }
    }

    // The type of records of these attributes, by the numbers of their types, which stand before the record type's.
    #[cycle(rebuild)]
    fn record_type_at(
        &self,
        id: NodeId,
        names: &[Attr],
        parts: &[NodeId],
    ) -> Result<TermType, TermError>
        requires earlier { AllByRecursion (λ part. part < place_of id) (places_of parts.now) }
        requires ascending { IsTrue (ascends text_cmp (texts names.now)) }
        requires types { (x : AttributeTypes) × (texts names.now ≡ attribute_names x)
            × (all_found (meanings (nodes_of self.now)) (places_of parts.now) ≡ Some (types_in x)) }
        ensures { (x : AttributeTypes) → texts names.now ≡ attribute_names x →
            all_found (meanings (nodes_of self.now)) (places_of parts.now) ≡ Some (types_in x) →
            BuildsType result (RecordType x) }
    {
        let mut pairs = Vec::with_capacity(self.alloc, names.len())?;
        for i in 0..names.len() {
            pairs.push((share_text(&names[i])?, self.type_at(parts[i])?))?;
        }
        Ok(TermType::Record {
            rty: TypeMap::of_ascending(self.alloc, pairs)?,
        })
    }
}
