ghost use Rattle.std.specs.Prelude.{◌≡◌};
ghost use Rattle.dis_dns.specs.Fields.{dns_data, dns_fields, dns_header, dns_question, dns_record, dns_zone, mdns_data, mdns_fields, mdns_header, mdns_question, mdns_record, mdns_service, mdns_zone};

use pk_fields::{FieldId, ids};

/// The fields that a message's rows are shown as.
#[derive(Clone, Copy)]
pub(crate) struct DnsFields {
    pub(crate) protocol: FieldId,
    pub(crate) header: HeaderFields,
    pub(crate) question: QuestionFields,
    pub(crate) record_head: RecordFields,
    pub(crate) record_data: DataFields,
}

/// The fields of a header.
#[derive(Clone, Copy)]
pub(crate) struct HeaderFields {
    pub(crate) id: FieldId,
    pub(crate) flags: FieldId,
    pub(crate) response: FieldId,
    pub(crate) opcode: FieldId,
    pub(crate) authoritative: FieldId,
    pub(crate) truncated: FieldId,
    pub(crate) recursion_desired: FieldId,
    pub(crate) recursion_available: FieldId,
    pub(crate) reserved: FieldId,
    pub(crate) authenticated: FieldId,
    pub(crate) checking_disabled: FieldId,
    pub(crate) response_code: FieldId,
    pub(crate) questions: FieldId,
    pub(crate) answers: FieldId,
    pub(crate) name_servers: FieldId,
    pub(crate) further_records: FieldId,
}

/// The fields of a question.
#[derive(Clone, Copy)]
pub(crate) struct QuestionFields {
    pub(crate) name: FieldId,
    pub(crate) kind: FieldId,
    pub(crate) class: ClassFields,
}

/// The fields of a record before its data.
#[derive(Clone, Copy)]
pub(crate) struct RecordFields {
    pub(crate) name: FieldId,
    pub(crate) kind: FieldId,
    pub(crate) class: ClassFields,
    pub(crate) time_to_live: FieldId,
    pub(crate) len: FieldId,
}

/// The fields of a class.
#[derive(Clone, Copy)]
pub(crate) enum ClassFields {
    /// All of its bits.
    Full(FieldId),
    /// The top bit, and the others (RFC 6762, 18.12 and 18.13).
    Split(FieldId, FieldId),
}

/// The fields of a record's data.
#[derive(Clone, Copy)]
pub(crate) struct DataFields {
    pub(crate) address: FieldId,
    pub(crate) address_6: FieldId,
    pub(crate) name_server: FieldId,
    pub(crate) canonical_name: FieldId,
    pub(crate) pointer: FieldId,
    pub(crate) preference: FieldId,
    pub(crate) mail_exchange: FieldId,
    pub(crate) zone: ZoneFields,
    pub(crate) text: FieldId,
    /// Where the data of a service is read.
    pub(crate) service: Option<ServiceFields>,
    pub(crate) other: FieldId,
}

/// The fields of a zone's start of authority.
#[derive(Clone, Copy)]
pub(crate) struct ZoneFields {
    pub(crate) server: FieldId,
    pub(crate) mailbox: FieldId,
    pub(crate) serial: FieldId,
    pub(crate) refresh: FieldId,
    pub(crate) retry: FieldId,
    pub(crate) expire: FieldId,
    pub(crate) minimum: FieldId,
}

/// The fields of a service (RFC 2782).
#[derive(Clone, Copy)]
pub(crate) struct ServiceFields {
    pub(crate) priority: FieldId,
    pub(crate) weight: FieldId,
    pub(crate) port: FieldId,
    pub(crate) target: FieldId,
}

/// The fields of the Domain Name System.
#[tactic(auto, unfolding(crate::specs::Fields::dns_fields))]
pub(crate) fn dns_fields() -> DnsFields
    ensures { result ≡ dns_fields }
{
    DnsFields {
        protocol: ids::DNS,
        header: dns_header(),
        question: dns_question(),
        record_head: dns_record(),
        record_data: dns_data(),
    }
}

#[tactic(auto, unfolding(crate::specs::Fields::dns_header))]
fn dns_header() -> HeaderFields
    ensures { result ≡ dns_header }
{
    HeaderFields {
        id: ids::DNS_ID,
        flags: ids::DNS_FLAGS,
        response: ids::DNS_FLAGS_RESPONSE,
        opcode: ids::DNS_FLAGS_OPCODE,
        authoritative: ids::DNS_FLAGS_AUTHORITATIVE,
        truncated: ids::DNS_FLAGS_TRUNCATED,
        recursion_desired: ids::DNS_FLAGS_RECDESIRED,
        recursion_available: ids::DNS_FLAGS_RECAVAIL,
        reserved: ids::DNS_FLAGS_Z,
        authenticated: ids::DNS_FLAGS_AUTHENTICATED,
        checking_disabled: ids::DNS_FLAGS_CHECKDISABLE,
        response_code: ids::DNS_FLAGS_RCODE,
        questions: ids::DNS_COUNT_QUERIES,
        answers: ids::DNS_COUNT_ANSWERS,
        name_servers: ids::DNS_COUNT_AUTH_RR,
        further_records: ids::DNS_COUNT_ADD_RR,
    }
}

#[tactic(auto, unfolding(crate::specs::Fields::dns_question))]
fn dns_question() -> QuestionFields
    ensures { result ≡ dns_question }
{
    QuestionFields {
        name: ids::DNS_QRY_NAME,
        kind: ids::DNS_QRY_TYPE,
        class: ClassFields::Full(ids::DNS_QRY_CLASS),
    }
}

#[tactic(auto, unfolding(crate::specs::Fields::dns_record))]
fn dns_record() -> RecordFields
    ensures { result ≡ dns_record }
{
    RecordFields {
        name: ids::DNS_RESP_NAME,
        kind: ids::DNS_RESP_TYPE,
        class: ClassFields::Full(ids::DNS_RESP_CLASS),
        time_to_live: ids::DNS_RESP_TTL,
        len: ids::DNS_RESP_LEN,
    }
}

#[tactic(auto, unfolding(crate::specs::Fields::dns_data))]
fn dns_data() -> DataFields
    ensures { result ≡ dns_data }
{
    DataFields {
        address: ids::DNS_A,
        address_6: ids::DNS_AAAA,
        name_server: ids::DNS_NS,
        canonical_name: ids::DNS_CNAME,
        pointer: ids::DNS_PTR_DOMAIN_NAME,
        preference: ids::DNS_MX_PREFERENCE,
        mail_exchange: ids::DNS_MX_MAIL_EXCHANGE,
        zone: dns_zone(),
        text: ids::DNS_TXT,
        service: None,
        other: ids::DNS_DATA,
    }
}

#[tactic(auto, unfolding(crate::specs::Fields::dns_zone))]
fn dns_zone() -> ZoneFields
    ensures { result ≡ dns_zone }
{
    ZoneFields {
        server: ids::DNS_SOA_MNAME,
        mailbox: ids::DNS_SOA_RNAME,
        serial: ids::DNS_SOA_SERIAL_NUMBER,
        refresh: ids::DNS_SOA_REFRESH_INTERVAL,
        retry: ids::DNS_SOA_RETRY_INTERVAL,
        expire: ids::DNS_SOA_EXPIRE_LIMIT,
        minimum: ids::DNS_SOA_MINIMUM_TTL,
    }
}

/// The fields of multicast DNS (RFC 6762, 18).
#[tactic(auto, unfolding(crate::specs::Fields::mdns_fields))]
pub(crate) fn mdns_fields() -> DnsFields
    ensures { result ≡ mdns_fields }
{
    DnsFields {
        protocol: ids::MDNS,
        header: mdns_header(),
        question: mdns_question(),
        record_head: mdns_record(),
        record_data: mdns_data(),
    }
}

#[tactic(auto, unfolding(crate::specs::Fields::mdns_header))]
fn mdns_header() -> HeaderFields
    ensures { result ≡ mdns_header }
{
    HeaderFields {
        id: ids::MDNS_ID,
        flags: ids::MDNS_FLAGS,
        response: ids::MDNS_FLAGS_RESPONSE,
        opcode: ids::MDNS_FLAGS_OPCODE,
        authoritative: ids::MDNS_FLAGS_AUTHORITATIVE,
        truncated: ids::MDNS_FLAGS_TRUNCATED,
        recursion_desired: ids::MDNS_FLAGS_RECDESIRED,
        recursion_available: ids::MDNS_FLAGS_RECAVAIL,
        reserved: ids::MDNS_FLAGS_Z,
        authenticated: ids::MDNS_FLAGS_AUTHENTICATED,
        checking_disabled: ids::MDNS_FLAGS_CHECKDISABLE,
        response_code: ids::MDNS_FLAGS_RCODE,
        questions: ids::MDNS_COUNT_QUERIES,
        answers: ids::MDNS_COUNT_ANSWERS,
        name_servers: ids::MDNS_COUNT_AUTH_RR,
        further_records: ids::MDNS_COUNT_ADD_RR,
    }
}

#[tactic(auto, unfolding(crate::specs::Fields::mdns_question))]
fn mdns_question() -> QuestionFields
    ensures { result ≡ mdns_question }
{
    QuestionFields {
        name: ids::MDNS_QRY_NAME,
        kind: ids::MDNS_QRY_TYPE,
        class: ClassFields::Split(ids::MDNS_QRY_QU, ids::MDNS_QRY_CLASS),
    }
}

#[tactic(auto, unfolding(crate::specs::Fields::mdns_record))]
fn mdns_record() -> RecordFields
    ensures { result ≡ mdns_record }
{
    RecordFields {
        name: ids::MDNS_RESP_NAME,
        kind: ids::MDNS_RESP_TYPE,
        class: ClassFields::Split(ids::MDNS_RESP_CACHE_FLUSH, ids::MDNS_RESP_CLASS),
        time_to_live: ids::MDNS_RESP_TTL,
        len: ids::MDNS_RESP_LEN,
    }
}

#[tactic(auto, unfolding(crate::specs::Fields::mdns_data))]
fn mdns_data() -> DataFields
    ensures { result ≡ mdns_data }
{
    DataFields {
        address: ids::MDNS_A,
        address_6: ids::MDNS_AAAA,
        name_server: ids::MDNS_NS,
        canonical_name: ids::MDNS_CNAME,
        pointer: ids::MDNS_PTR_DOMAIN_NAME,
        preference: ids::MDNS_MX_PREFERENCE,
        mail_exchange: ids::MDNS_MX_MAIL_EXCHANGE,
        zone: mdns_zone(),
        text: ids::MDNS_TXT,
        service: Some(mdns_service()),
        other: ids::MDNS_DATA,
    }
}

#[tactic(auto, unfolding(crate::specs::Fields::mdns_zone))]
fn mdns_zone() -> ZoneFields
    ensures { result ≡ mdns_zone }
{
    ZoneFields {
        server: ids::MDNS_SOA_MNAME,
        mailbox: ids::MDNS_SOA_RNAME,
        serial: ids::MDNS_SOA_SERIAL_NUMBER,
        refresh: ids::MDNS_SOA_REFRESH_INTERVAL,
        retry: ids::MDNS_SOA_RETRY_INTERVAL,
        expire: ids::MDNS_SOA_EXPIRE_LIMIT,
        minimum: ids::MDNS_SOA_MINIMUM_TTL,
    }
}

#[tactic(auto, unfolding(crate::specs::Fields::mdns_service))]
fn mdns_service() -> ServiceFields
    ensures { result ≡ mdns_service }
{
    ServiceFields {
        priority: ids::MDNS_SRV_PRIORITY,
        weight: ids::MDNS_SRV_WEIGHT,
        port: ids::MDNS_SRV_PORT,
        target: ids::MDNS_SRV_TARGET,
    }
}
