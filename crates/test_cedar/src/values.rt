// The values of constructor calls, each refusal, and the calls that are made of values.
use crate::expected::expect_text;
use smt_ext::{DatetimeError, DecimalError, Ext, ExtParseError, IPError};
use smt_term::Text;
use smt_values::{
    ExprList, ExtError, ExtFromCedar, Literal, PartialMap, PartialValue, RestrictedExpr, Value,
    ValueList, ValueMap, value_of_ext,
};
use std::alloc::Global;
use std::process::Abort;
use test_words::AMPLE;

/// An argument of a call.
#[derive(Clone, Copy)]
enum Arg {
    /// A text.
    Text(&'static str),
    /// A number.
    Long(i64),
    /// A call of this function with this text.
    Call(&'static str, &'static str),
    /// Neither a literal nor a call.
    Other,
}

/// A call of a function with these arguments.
fn call(rt: &impl Abort, alloc: Global, name: &str, given: &[Arg]) -> RestrictedExpr {
    let mut args = Vec::new(alloc);
    for arg in given {
        args.push(argument(rt, alloc, *arg)).expect(rt, AMPLE);
    }
    RestrictedExpr::Call {
        name: Text::from_str(alloc, name).expect(rt, AMPLE),
        args: ExprList::of_items(args),
    }
}

/// An argument as an expression.
fn argument(rt: &impl Abort, alloc: Global, arg: Arg) -> RestrictedExpr {
    match arg {
        Arg::Text(bytes) => text(rt, alloc, bytes),
        Arg::Long(number) => RestrictedExpr::Lit(Literal::Long(number)),
        Arg::Call(name, bytes) => call_with(rt, alloc, name, bytes),
        Arg::Other => RestrictedExpr::Other,
    }
}

/// A text as an expression.
fn text(rt: &impl Abort, alloc: Global, bytes: &str) -> RestrictedExpr {
    let text = Text::from_str(alloc, bytes).expect(rt, AMPLE);
    RestrictedExpr::Lit(Literal::String(text))
}

/// A call of a function with one text.
fn call_with(rt: &impl Abort, alloc: Global, name: &str, bytes: &str) -> RestrictedExpr {
    let mut args = Vec::new(alloc);
    args.push(text(rt, alloc, bytes)).expect(rt, AMPLE);
    RestrictedExpr::Call {
        name: Text::from_str(alloc, name).expect(rt, AMPLE),
        args: ExprList::of_items(args),
    }
}

/// A value of an extension type, by its kind and its number or its range.
fn kind_and_value(rt: &impl Abort, alloc: Global, value: &Ext) -> String {
    let text = match value {
        Ext::Decimal { d } => format!(in alloc; "decimal {d}"),
        Ext::Ipaddr { ip } => format!(in alloc; "ip {ip}"),
        Ext::Datetime { dt } => {
            let milliseconds = i64::from(dt);
            format!(in alloc; "datetime {milliseconds}")
        }
        Ext::Duration { d } => {
            let milliseconds = d.to_milliseconds();
            format!(in alloc; "duration {milliseconds}")
        }
    };
    text.expect(rt, AMPLE)
}

/// What an expression says: a value, `none` where it is refused with an equal expression, and else the error's text.
fn said(rt: &impl Abort, alloc: Global, e: &RestrictedExpr) -> String {
    match Ext::try_from_restricted(alloc, e) {
        Ok(value) => kind_and_value(rt, alloc, &value),
        Err(ExtError::FromRestrictedExpr(given)) => {
            let answer = if given == *e { "none" } else { "another" };
            String::from_str(alloc, answer).expect(rt, AMPLE)
        }
        Err(other) => message(rt, alloc, other),
    }
}

/// The same of a value.
fn said_by_value(rt: &impl Abort, alloc: Global, v: &Value) -> String {
    match Ext::try_from_value(alloc, v) {
        Ok(value) => kind_and_value(rt, alloc, &value),
        Err(ExtError::FromValue(given)) => {
            let answer = if given == *v { "none" } else { "another" };
            String::from_str(alloc, answer).expect(rt, AMPLE)
        }
        Err(other) => message(rt, alloc, other),
    }
}

const START: Arg = Arg::Call("datetime", "1970-01-01");

const NEXT_DAY: Arg = Arg::Call("datetime", "1970-01-02");

const LONGEST: Arg = Arg::Call("duration", "9223372036854775807ms");

const SPAN: Arg = Arg::Call("duration", "5ms");

const ONE: Arg = Arg::Text("1.0");

const ROWS: &[(&str, &[Arg], &str)] = &[
    ("decimal", &[ONE], "decimal 1.0000"),
    ("decimal", &[Arg::Text("-0.5")], "decimal -0.5000"),
    ("decimal", &[Arg::Text("1")], "none"),
    ("decimal", &[Arg::Text("922337203685477.5808")], "none"),
    ("decimal", &[Arg::Text("")], "none"),
    ("decimal", &[Arg::Text("1.0\0")], "none"),
    ("decimal", &[Arg::Text("\u{661}.0")], "none"),
    ("Decimal", &[ONE], "none"),
    ("decimal ", &[ONE], "none"),
    ("ns::decimal", &[ONE], "none"),
    ("", &[ONE], "none"),
    ("decimal", &[], "none"),
    ("decimal", &[ONE, ONE], "none"),
    ("decimal", &[Arg::Long(1)], "none"),
    ("decimal", &[Arg::Call("decimal", "1.0")], "none"),
    ("decimal", &[Arg::Other], "none"),
    (
        "datetime",
        &[Arg::Text("2024-10-15")],
        "datetime 1728950400000",
    ),
    (
        "datetime",
        &[Arg::Text("1969-12-31T23:59:59.999Z")],
        "datetime -1",
    ),
    ("datetime", &[Arg::Text("2023-02-29")], "none"),
    ("datetime", &[Arg::Text("5ms")], "none"),
    ("duration", &[Arg::Text("1d2h")], "duration 93600000"),
    (
        "duration",
        &[Arg::Text("-9223372036854775808ms")],
        "duration -9223372036854775808",
    ),
    ("duration", &[Arg::Text("9223372036854775808ms")], "none"),
    ("duration", &[Arg::Text("5")], "none"),
    ("ip", &[Arg::Text("10.0.0.0/8")], "ip 10.0.0.0/8"),
    (
        "ip",
        &[Arg::Text("::1")],
        "ip 0000:0000:0000:0000:0000:0000:0000:0001/128",
    ),
    ("ip", &[Arg::Text("010.0.0.0")], "none"),
    ("ipaddr", &[Arg::Text("10.0.0.0/8")], "none"),
    ("offset", &[START, SPAN], "datetime 5"),
    ("offset", &[START, LONGEST], "datetime 9223372036854775807"),
    ("offset", &[NEXT_DAY, LONGEST], "none"),
    ("offset", &[SPAN, START], "none"),
    ("offset", &[START], "none"),
    ("offset", &[START, SPAN, SPAN], "none"),
    ("offset", &[START, Arg::Call("duration", "5")], "none"),
    ("offset", &[Arg::Call("datetime", "1970-1-1"), SPAN], "none"),
    (
        "offset",
        &[Arg::Text("1970-01-01"), Arg::Text("5ms")],
        "none",
    ),
    ("durationSince", &[START, START], "none"),
];

/// What says something else of a value that is made of what the call gives.
fn wrong_again(
    rt: &impl Abort,
    alloc: Global,
    given: &RestrictedExpr,
    answer: &str,
) -> Option<&'static str> {
    match Ext::try_from_restricted(alloc, given) {
        Ok(read) => {
            let made = value_of_ext(alloc, &read).expect(rt, AMPLE);
            let answered = said_by_value(rt, alloc, &made);
            (answered.as_str() != answer).then_some("the value that is made again")
        }
        Err(_) => None,
    }
}

/// What says something else of a value that is this call.
fn wrong_by_value(
    rt: &impl Abort,
    alloc: Global,
    given: &RestrictedExpr,
    answer: &str,
) -> Option<&'static str> {
    let value = Value::ExtensionValue(given.share().expect(rt, AMPLE));
    let answered = said_by_value(rt, alloc, &value);
    (answered.as_str() != answer).then_some("the value")
}

/// Which of the readings of a call says something else, none where each says this.
fn wrong_reading(
    rt: &impl Abort,
    alloc: Global,
    given: &RestrictedExpr,
    answer: &str,
) -> Option<&'static str> {
    if said(rt, alloc, given).as_str() != answer {
        return Some("the call");
    }
    match wrong_by_value(rt, alloc, given, answer) {
        Some(reading) => Some(reading),
        None => wrong_again(rt, alloc, given, answer),
    }
}

/// Stops the test where a reading says something else of a call, and names both.
fn expect_no_other(rt: &impl Abort, name: &str, wrong: Option<&'static str>) {
    if let Some(reading) = wrong {
        panic!(rt; "{name}: {reading} says something else");
    }
}

#[test]
fn calls_and_values(rt: HostRuntime) {
    let alloc = rt.alloc();
    for &(name, args, answer) in ROWS {
        let given = call(&rt, alloc, name, args);
        let wrong = wrong_reading(&rt, alloc, &given, answer);
        expect_no_other(&rt, name, wrong);
    }
}

const MADE: &[(&str, &str, &str)] = &[
    (
        "decimal",
        "-0.5",
        "Call { name: \"decimal\", args: ExprList { items: [Lit(String(\"-0.5000\"))] } }",
    ),
    (
        "ip",
        "10.0.0.1",
        "Call { name: \"ip\", args: ExprList { items: [Lit(String(\"10.0.0.1/32\"))] } }",
    ),
    (
        "duration",
        "-1s",
        "Call { name: \"duration\", args: ExprList { items: [Lit(String(\"-1000ms\"))] } }",
    ),
    (
        "datetime",
        "1970-01-02",
        "Call { name: \"offset\", args: ExprList { items: [Call { name: \"datetime\", args: ExprList { items: [Lit(String(\"1970-01-01\"))] } }, Call { name: \"duration\", args: ExprList { items: [Lit(String(\"86400000ms\"))] } }] } }",
    ),
];

/// The value that is made of the value of a call with one text.
fn made_again(rt: &impl Abort, alloc: Global, name: &str, bytes: &str) -> Value {
    let given = call_with(rt, alloc, name, bytes);
    let read = Ext::try_from_restricted(alloc, &given).expect(rt, "the call has a value");
    value_of_ext(alloc, &read).expect(rt, AMPLE)
}

/// The call that a value is, as `{:?}` prints it.
fn shown_call(rt: &impl Abort, alloc: Global, made: &Value) -> String {
    match made {
        Value::ExtensionValue(made) => format!(in alloc; "{made:?}").expect(rt, AMPLE),
        _ => panic!(rt; "another kind of value is made"),
    }
}

#[test]
fn calls_made_of_values(rt: HostRuntime) {
    let alloc = rt.alloc();
    for &(name, bytes, answer) in MADE {
        let made = made_again(&rt, alloc, name, bytes);
        let answered = shown_call(&rt, alloc, &made);
        expect_text(&rt, name, answered.as_str(), answer);
    }
}

/// Attributes, one of them twice, each with a number.
const NUMBERED: &[(&str, i64)] = &[("b", 1), ("a", 2), ("b", 3), ("", 4)];

/// The record of these attributes, of those of one name the last.
fn numbered(rt: &impl Abort, alloc: Global) -> ValueMap {
    let mut pairs = Vec::new(alloc);
    for &(name, number) in NUMBERED {
        let name = Text::from_str(alloc, name).expect(rt, AMPLE);
        let pair = (name, Value::Lit(Literal::Long(number)));
        pairs.push(pair).expect(rt, AMPLE);
    }
    ValueMap::of_pairs(alloc, pairs).expect(rt, AMPLE)
}

/// The same attributes, of whose values nothing is known.
fn unknown(rt: &impl Abort, alloc: Global) -> PartialMap {
    let mut parts = Vec::new(alloc);
    for &(name, _) in NUMBERED {
        let name = Text::from_str(alloc, name).expect(rt, AMPLE);
        parts.push((name, PartialValue::Residual)).expect(rt, AMPLE);
    }
    PartialMap::of_pairs(alloc, parts).expect(rt, AMPLE)
}

/// The list of one value of an extension type.
fn one_decimal(rt: &impl Abort, alloc: Global) -> ValueList {
    let mut items = Vec::new(alloc);
    let call = call_with(rt, alloc, "decimal", "1.0");
    items.push(Value::ExtensionValue(call)).expect(rt, AMPLE);
    ValueList::of_items(items)
}

#[test]
fn values_of_no_extension_type(rt: HostRuntime) {
    let alloc = rt.alloc();
    let set = Value::Set(one_decimal(&rt, alloc));
    let said = said_by_value(&rt, alloc, &set);
    expect_text(&rt, "a set", said.as_str(), "none");
    let record = Value::Record(numbered(&rt, alloc));
    let said = said_by_value(&rt, alloc, &record);
    expect_text(&rt, "a record", said.as_str(), "none");
}

#[test]
fn records_are_in_order(rt: HostRuntime) {
    let alloc = rt.alloc();
    let record = Value::Record(numbered(&rt, alloc));
    let answered = format!(in alloc; "{record:?}").expect(&rt, AMPLE);
    expect_text(
        &rt,
        "known values",
        answered.as_str(),
        "Record(ValueMap { pairs: AttributeMap { items: [(\"\", Lit(Long(4))), (\"a\", Lit(Long(2))), (\"b\", Lit(Long(3)))] } })",
    );
    let known = unknown(&rt, alloc).share().expect(&rt, AMPLE);
    let answered = format!(in alloc; "{:?}", known.items()).expect(&rt, AMPLE);
    let wanted = "[(\"\", Residual), (\"a\", Residual), (\"b\", Residual)]";
    expect_text(&rt, "values not known", answered.as_str(), wanted);
}

/// The text of an error.
fn message(rt: &impl Abort, alloc: Global, error: ExtError) -> String {
    format!(in alloc; "{error}").expect(rt, AMPLE)
}

#[test]
fn messages(rt: HostRuntime) {
    let alloc = rt.alloc();
    let rows = [
        (ExtError::from(DecimalError::Memory), "out of memory"),
        (ExtError::from(DatetimeError::Memory), "out of memory"),
        (ExtError::from(IPError::Memory), "out of memory"),
        (ExtError::from(ExtParseError::Memory), "out of memory"),
        (
            ExtError::from(DatetimeError::ParseIntError),
            "datetime error",
        ),
        (ExtError::from(IPError::ExepectedOctet), "IP error"),
        (
            ExtError::FromValue(Value::Lit(Literal::Bool(true))),
            "fail to convert value to an extension term: Lit(Bool(true))",
        ),
        (
            ExtError::UnsupportedPartialValue,
            "extension function returned a partial value",
        ),
    ];
    for (error, answer) in rows {
        let message = message(&rt, alloc, error);
        expect_text(&rt, "the text of an error", message.as_str(), answer);
    }
}
