// Values that were evaluated.
ghost use Rattle.std.specs.Prelude.{◌≡◌, Ok, IsOk, option_copied, unwrap_or};
ghost use Rattle.tera_errors.specs.Prelude.{Gives};
ghost use Rattle.tera_values.specs.Prelude.{IsScalar, is_undefined, truthy, undefined};
ghost use Rattle.tera_operators.specs.Operand.{Evaluated, spanning};

use std::marker::Model;
use tera_values::{Span, TeraResult, Value};

/// A value, and the span at which a fault in it is reported.
#[derive(Drop)]
pub struct Operand {
    value: Value,
    span: Span,
}

impl Model for Operand {
    ghost use Rattle.tera_operators.specs.Operand.{Evaluated, evaluated_coding};

    ghost Value = { Evaluated };

    ghost coded = { evaluated_coding };

    ghost view = { λ o. record { value = o.value; span = o.span } };
}

impl Operand {
    /// The value at its span.
    #[inline(always)]
    pub fn new(value: Value, span: Span) -> Operand
        ensures { result ≡ record { value = value; span = span } }
    {
        Operand { value, span }
    }

    /// The value.
    #[inline(always)]
    pub fn value(&self) -> &Value
        ensures { result.now ≡ self.now.value }
    {
        &self.value
    }

    /// The span.
    #[inline(always)]
    pub fn span(&self) -> Span
        ensures { result ≡ self.now.span }
    {
        self.span
    }

    /// The value alone, which is moved and not copied.
    #[inline(always)]
    pub fn into_value(self) -> Value
        ensures { result ≡ self.value }
    {
        let Operand { value, span: _ } = self;
        value
    }

    /// The same, where it lies.
    #[inline(always)]
    pub fn lend(&self) -> LentOperand<'_>
        ensures { result ≡ self.now }
    {
        LentOperand {
            value: Some(&self.value),
            span: self.span,
        }
    }
}

/// An operand that lies elsewhere: nothing of it is copied. Without a value it is undefined.
#[derive(Drop)]
pub struct LentOperand<'v> {
    value: Option<&'v Value>,
    span: Span,
}

impl<'v> Model for LentOperand<'v> {
    ghost use Rattle.std.specs.Prelude.{option_copied, unwrap_or};
    ghost use Rattle.tera_values.specs.Val.{undefined};
    ghost use Rattle.tera_operators.specs.Operand.{Evaluated, evaluated_coding};

    ghost Value = { Evaluated };

    ghost coded = { evaluated_coding };

    ghost view = { λ o. record {
      value = unwrap_or (option_copied o.value) undefined;
      span = o.span;
    } };
}

impl<'v> LentOperand<'v> {
    /// The value at its span, or undefined.
    #[inline(always)]
    pub fn new(value: Option<&'v Value>, span: Span) -> LentOperand<'v>
        ensures { result
            ≡ record { value = unwrap_or (option_copied value.entry) undefined; span = span } }
    {
        LentOperand { value, span }
    }

    /// The value, where there is one.
    #[inline(always)]
    pub fn value(&self) -> Option<&'v Value>
        ensures { unwrap_or (option_copied result) undefined ≡ self.now.value }
    {
        self.value
    }

    /// The span.
    #[inline(always)]
    pub fn span(&self) -> Span
        ensures { result ≡ self.now.span }
    {
        self.span
    }

    /// From its start to the end of one on its right.
    #[inline(always)]
    pub(crate) fn span_to(&self, right: &LentOperand<'_>) -> Span
        ensures { result ≡ spanning self.now right.now }
    {
        Span {
            start: self.span.start,
            end: right.span.end,
        }
    }

    /// Whether it is undefined.
    #[inline(always)]
    pub fn is_undefined(&self) -> bool
        ensures { result ≡ is_undefined self.now.value }
    {
        match self.value {
            Some(value) => value.is_undefined(),
            None => true,
        }
    }

    /// Whether a choice takes it for true.
    #[inline(always)]
    pub fn is_truthy(&self) -> bool
        ensures { result ≡ truthy self.now.value }
    {
        matches!(self.value, Some(value) if value.is_truthy())
    }

    /// An operand of its own. Only what is not in shared form is copied.
    pub fn to_operand(&self) -> TeraResult<Operand>
        ensures operand { Gives (λ o. o) result (Ok self.now) }
        ensures ready { IsScalar self.now.value → IsOk result }
    {
        match self.value {
            Some(value) => Ok(Operand::new(value.try_clone()?, self.span)),
            None => Ok(Operand::new(Value::undefined(), self.span)),
        }
    }
}
