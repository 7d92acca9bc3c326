//! The attributes of an element, and the currency of an amount: ISO 20022-4, XML Schema part 1 §3.4.4.
ghost use Rattle.std.specs.Prelude.{◌≡◌, ◌++◌, ℕ, Some, None, IfOk, OnOk, codes, map};
ghost use Rattle.std.specs.Str.{chars};
ghost use Rattle.lexical_core.specs.Names.{attribute_value as value_of};
ghost use Rattle.facets.specs.declared.simple.Simple.{Simple as SimpleType};
ghost use Rattle.reference_check.specs.Forms.{text_type, Form as FormType};
ghost use Rattle.message_model.specs.Tables.{message_of, types_of};
ghost use Rattle.message_model.specs.Views.{IsFormOf};
ghost use Rattle.message_model.specs.Writes.{currency};
ghost use Rattle.xml_instances.specs.EventFaults.{has_currency, CurrencyFault, AttributeFault};
ghost use Rattle.xml_instances.specs.Built.{CodeShown, CurrencyShown, TextShown};
ghost use Rattle.xml_instances.specs.Keeping.{GoOn};
ghost use Rattle.xml_instances.specs.Open.{AreMade, IsRuleOf, path_round, Says, IsCodeForm};
ghost use Rattle.xml_instances.specs.Verdicts.{IsLean};
ghost use Rattle.markup.specs.TagAttributes.{tag_entry};

use super::Content;
use crate::known::{currency_of, has_unknown};
use crate::opened::Refusal;
use crate::texts::{ending_of, take_characters};
use facets::Simple;
use lexical_core::Rule;
use markup::TagAttribute;
use message_model::{Form, Model};
use std::alloc::AllocError;

impl Content {
    /// The attributes of an element of the type.
    pub(crate) fn attributes(
        &mut self,
        model: &Model,
        number: u32,
        attrs: &[TagAttribute<'_>],
    ) -> Result<(), Refusal>
        requires { AreMade (types_of model.now) self.old }
        ensures made { AreMade (types_of model.now) self.new }
        ensures lean { IsLean self.old → IsLean self.new }
        ensures kept { self.new.innermost ≡ self.old.innermost }
        ensures round { self.new.round ≡ self.old.round }
        ensures text { self.new.text ≡ self.old.text }
        ensures taken { Says (AttributeFault (message_of model.now) (Some (types_of model.now number)) (map tag_entry attrs.now) (path_round (types_of model.now) self.old.round.items)) result }
        ensures shown { OnOk result (GoOn self.old.pieces self.new.pieces (CodeShown model.now (Some (types_of model.now number)) (map tag_entry attrs.now))) }
    {
        let _ = model.type_count();
        let form = model.form(number);
        let money = is_money(&form);
        if has_unknown(attrs, money) {
            return Err(self.refused(model, Rule::UnknownAttribute, b""));
        }
        match form {
            Some(Form::Money { code, .. }) => self.currency(model, code, attrs),
            _ => Ok(()),
        }
    }

    /// The currency of an amount, which has to be there.
    pub(crate) fn currency(
        &mut self,
        model: &Model,
        code: u32,
        attrs: &[TagAttribute<'_>],
    ) -> Result<(), Refusal>
        requires made { AreMade (types_of model.now) self.old }
        requires code { IsCodeForm (types_of model.now code) }
        ensures made { AreMade (types_of model.now) self.new }
        ensures lean { IsLean self.old → IsLean self.new }
        ensures kept { self.new.innermost ≡ self.old.innermost }
        ensures round { self.new.round ≡ self.old.round }
        ensures text { self.new.text ≡ self.old.text }
        ensures taken { Says (CurrencyFault (types_of model.now code) (value_of currency (map tag_entry attrs.now)) (path_round (types_of model.now) self.old.round.items ++ codes "/@Ccy")) result }
        ensures shown { OnOk result (GoOn self.old.pieces self.new.pieces (CurrencyShown (types_of model.now code) (map tag_entry attrs.now))) }
    {
        let Some(value) = currency_of(attrs) else {
            return Err(self.refused(model, Rule::MissingAttribute, b"/@Ccy"));
        };
        let Some(simple) = model.text_type(code) else {
            unreachable!()
        };
        match self.attribute_rule(model, code, simple, value) {
            Ok(rule) => self.answer(model, rule, b"/@Ccy"),
            Err(_) => Err(Refusal::Memory),
        }
    }

    /// The rule that the value of an attribute breaks, if it breaks one.
    pub(crate) fn attribute_rule(
        &mut self,
        model: &Model,
        number: u32,
        simple: &Simple,
        value: &[u8],
    ) -> Result<Option<Rule>, AllocError>
        requires made { AreMade (types_of model.now) self.old }
        requires simple { text_type (types_of model.now number) ≡ Some simple.now }
        ensures made { AreMade (types_of model.now) self.new }
        ensures lean { IsLean self.old → IsLean self.new }
        ensures kept { self.new.innermost ≡ self.old.innermost }
        ensures round { self.new.round ≡ self.old.round }
        ensures text { self.new.text ≡ self.old.text }
        ensures taken { IfOk result (λ rule. IsRuleOf simple.now (chars value.now) rule) }
        ensures shown { IfOk result (λ rule. rule ≡ None → GoOn self.old.pieces self.new.pieces (TextShown simple.now (chars value.now))) }
    {
        let Ok(text) = std::str::from_utf8(value) else {
            return Err(AllocError);
        };
        let mut check = self.check_for(model, number, simple)?;
        take_characters(&mut check, simple, text)?;
        let ended = ending_of(&check, simple, &mut self.pieces);
        self.checks.keep(number, simple, check);
        ended
    }
}

/// Whether the form is that of amounts with a currency.
pub(crate) fn is_money(form: &Option<Form<'_>>) -> bool
    ensures { (f : FormType ℕ SimpleType) → IsFormOf form.now f → result ≡ has_currency f }
{
    matches!(form, Some(Form::Money { .. }))
}
