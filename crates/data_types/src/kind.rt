//! The kinds of data that an element without elements can hold.

/// The kind of a simple type, by its base in XML Schema part 2, §3.2 and §3.3.
#[derive(Clone, Copy, Debug, PartialEq, Eq)]
pub enum Kind {
    /// `xs:string`, §3.2.1.
    Text,
    /// `xs:decimal`, §3.2.3.
    Decimal,
    /// `xs:boolean`, §3.2.2.
    Boolean,
    /// `xs:base64Binary`, §3.2.16.
    Binary,
    /// `xs:date`, §3.2.9.
    Date,
    /// `xs:dateTime`, §3.2.7.
    DateTime,
    /// `xs:time`, §3.2.8.
    Time,
    /// `xs:gYear`, §3.2.11.
    Year,
    /// `xs:gYearMonth`, §3.2.10.
    YearMonth,
    /// `xs:gMonthDay`, §3.2.12.
    MonthDay,
    /// `xs:gMonth`, §3.2.14.
    Month,
    /// `xs:gDay`, §3.2.13.
    Day,
    /// Any element: no simple type.
    Envelope,
}
