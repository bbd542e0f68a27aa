//! The fields by name. Written by tools/make_fields from tools/fields.txt.
use crate::field_id::FieldId;

/// How many fields there are: their numbers are below this.
pub const FIELD_COUNT: u16 = 360;

/// `frame`: the whole frame, before any layer is read.
pub const FRAME: FieldId = FieldId(0);
/// `frame.number`: place in the file, from 1.
pub const FRAME_NUMBER: FieldId = FieldId(1);
/// `frame.time_epoch`: when it was taken, since 1970 in UTC.
pub const FRAME_TIME_EPOCH: FieldId = FieldId(2);
/// `frame.time_relative`: time since the first frame that has one.
pub const FRAME_TIME_RELATIVE: FieldId = FieldId(3);
/// `frame.time_delta`: time since the latest earlier frame that has one.
pub const FRAME_TIME_DELTA: FieldId = FieldId(4);
/// `frame.len`: length on the wire, in bytes.
pub const FRAME_LEN: FieldId = FieldId(5);
/// `frame.cap_len`: captured length, in bytes.
pub const FRAME_CAP_LEN: FieldId = FieldId(6);
/// `eth`: Ethernet header.
pub const ETH: FieldId = FieldId(7);
/// `eth.dst`: destination address.
pub const ETH_DST: FieldId = FieldId(8);
/// `eth.addr`: either address.
pub const ETH_ADDR: FieldId = FieldId(9);
/// `eth.src`: source address.
pub const ETH_SRC: FieldId = FieldId(10);
/// `eth.type`: type of what follows, above 1,500.
pub const ETH_TYPE: FieldId = FieldId(11);
/// `eth.len`: length of what follows, at most 1,500.
pub const ETH_LEN: FieldId = FieldId(12);
/// `null`: BSD loopback header.
pub const NULL: FieldId = FieldId(13);
/// `null.family`: protocol family, in the byte order of the file.
pub const NULL_FAMILY: FieldId = FieldId(14);
/// `sll`: Linux cooked capture header.
pub const SLL: FieldId = FieldId(15);
/// `sll.pkttype`: whether the packet came to this host, left it or passed by.
pub const SLL_PKTTYPE: FieldId = FieldId(16);
/// `sll.hatype`: hardware type (ARPHRD).
pub const SLL_HATYPE: FieldId = FieldId(17);
/// `sll.halen`: length of the link-layer address.
pub const SLL_HALEN: FieldId = FieldId(18);
/// `sll.src`: link-layer address of the sender, at most 8 bytes.
pub const SLL_SRC: FieldId = FieldId(19);
/// `sll.etype`: type of what follows.
pub const SLL_ETYPE: FieldId = FieldId(20);
/// `sll2`: Linux cooked capture header, version 2.
pub const SLL2: FieldId = FieldId(21);
/// `sll2.etype`: type of what follows.
pub const SLL2_ETYPE: FieldId = FieldId(22);
/// `sll2.ifindex`: index of the interface.
pub const SLL2_IFINDEX: FieldId = FieldId(23);
/// `sll2.hatype`: hardware type (ARPHRD).
pub const SLL2_HATYPE: FieldId = FieldId(24);
/// `sll2.pkttype`: whether the packet came to this host, left it or passed by.
pub const SLL2_PKTTYPE: FieldId = FieldId(25);
/// `sll2.halen`: length of the link-layer address.
pub const SLL2_HALEN: FieldId = FieldId(26);
/// `sll2.src`: link-layer address of the sender, at most 8 bytes.
pub const SLL2_SRC: FieldId = FieldId(27);
/// `vlan`: VLAN tag.
pub const VLAN: FieldId = FieldId(28);
/// `vlan.priority`: priority code point.
pub const VLAN_PRIORITY: FieldId = FieldId(29);
/// `vlan.dei`: drop eligible indicator.
pub const VLAN_DEI: FieldId = FieldId(30);
/// `vlan.id`: VLAN identifier.
pub const VLAN_ID: FieldId = FieldId(31);
/// `vlan.etype`: type of what follows, above 1,500.
pub const VLAN_ETYPE: FieldId = FieldId(32);
/// `vlan.len`: length of what follows, at most 1,500.
pub const VLAN_LEN: FieldId = FieldId(33);
/// `arp`: Address Resolution Protocol.
pub const ARP: FieldId = FieldId(34);
/// `arp.hw.type`: hardware address space.
pub const ARP_HW_TYPE: FieldId = FieldId(35);
/// `arp.proto.type`: protocol address space.
pub const ARP_PROTO_TYPE: FieldId = FieldId(36);
/// `arp.hw.size`: length of a hardware address.
pub const ARP_HW_SIZE: FieldId = FieldId(37);
/// `arp.proto.size`: length of a protocol address.
pub const ARP_PROTO_SIZE: FieldId = FieldId(38);
/// `arp.opcode`: request (1) or reply (2).
pub const ARP_OPCODE: FieldId = FieldId(39);
/// `arp.src.hw_mac`: Ethernet address of the sender.
pub const ARP_SRC_HW_MAC: FieldId = FieldId(40);
/// `arp.src.proto_ipv4`: IPv4 address of the sender.
pub const ARP_SRC_PROTO_IPV4: FieldId = FieldId(41);
/// `arp.dst.hw_mac`: Ethernet address of the target.
pub const ARP_DST_HW_MAC: FieldId = FieldId(42);
/// `arp.dst.proto_ipv4`: IPv4 address of the target.
pub const ARP_DST_PROTO_IPV4: FieldId = FieldId(43);
/// `arp.src.hw`: other hardware address of the sender.
pub const ARP_SRC_HW: FieldId = FieldId(44);
/// `arp.src.proto`: other protocol address of the sender.
pub const ARP_SRC_PROTO: FieldId = FieldId(45);
/// `arp.dst.hw`: other hardware address of the target.
pub const ARP_DST_HW: FieldId = FieldId(46);
/// `arp.dst.proto`: other protocol address of the target.
pub const ARP_DST_PROTO: FieldId = FieldId(47);
/// `ip`: Internet Protocol, version 4.
pub const IP: FieldId = FieldId(48);
/// `ip.version`: version, 4.
pub const IP_VERSION: FieldId = FieldId(49);
/// `ip.hdr_len`: length of the header, in bytes.
pub const IP_HDR_LEN: FieldId = FieldId(50);
/// `ip.dsfield`: differentiated services byte.
pub const IP_DSFIELD: FieldId = FieldId(51);
/// `ip.dsfield.dscp`: differentiated services code point.
pub const IP_DSFIELD_DSCP: FieldId = FieldId(52);
/// `ip.dsfield.ecn`: explicit congestion notification.
pub const IP_DSFIELD_ECN: FieldId = FieldId(53);
/// `ip.len`: length of header and payload, in bytes.
pub const IP_LEN: FieldId = FieldId(54);
/// `ip.id`: identification, the same in all fragments.
pub const IP_ID: FieldId = FieldId(55);
/// `ip.flags.rb`: reserved bit.
pub const IP_FLAGS_RB: FieldId = FieldId(56);
/// `ip.flags.df`: don't fragment.
pub const IP_FLAGS_DF: FieldId = FieldId(57);
/// `ip.flags.mf`: more fragments.
pub const IP_FLAGS_MF: FieldId = FieldId(58);
/// `ip.frag_offset`: place of the fragment, in units of 8 bytes.
pub const IP_FRAG_OFFSET: FieldId = FieldId(59);
/// `ip.ttl`: time to live.
pub const IP_TTL: FieldId = FieldId(60);
/// `ip.proto`: protocol of the payload.
pub const IP_PROTO: FieldId = FieldId(61);
/// `ip.checksum`: header checksum.
pub const IP_CHECKSUM: FieldId = FieldId(62);
/// `ip.src`: source address.
pub const IP_SRC: FieldId = FieldId(63);
/// `ip.addr`: either address.
pub const IP_ADDR: FieldId = FieldId(64);
/// `ip.dst`: destination address.
pub const IP_DST: FieldId = FieldId(65);
/// `ip.options`: options.
pub const IP_OPTIONS: FieldId = FieldId(66);
/// `ip.fragment`: number of a frame that brought a fragment of the joined datagram.
pub const IP_FRAGMENT: FieldId = FieldId(67);
/// `ip.reassembled.length`: length of the joined datagram, in bytes.
pub const IP_REASSEMBLED_LENGTH: FieldId = FieldId(68);
/// `ip.fragment.error`: why fragments can't be joined: 1 too long, 2 two tails.
pub const IP_FRAGMENT_ERROR: FieldId = FieldId(69);
/// `ip.reassembled_in`: number of the frame in which the datagram was joined.
pub const IP_REASSEMBLED_IN: FieldId = FieldId(70);
/// `ipv6`: Internet Protocol, version 6.
pub const IPV6: FieldId = FieldId(71);
/// `ipv6.version`: version, 6.
pub const IPV6_VERSION: FieldId = FieldId(72);
/// `ipv6.tclass`: traffic class.
pub const IPV6_TCLASS: FieldId = FieldId(73);
/// `ipv6.flow`: flow label.
pub const IPV6_FLOW: FieldId = FieldId(74);
/// `ipv6.plen`: length of what follows the header, in bytes.
pub const IPV6_PLEN: FieldId = FieldId(75);
/// `ipv6.nxt`: next header.
pub const IPV6_NXT: FieldId = FieldId(76);
/// `ipv6.hlim`: hop limit.
pub const IPV6_HLIM: FieldId = FieldId(77);
/// `ipv6.src`: source address.
pub const IPV6_SRC: FieldId = FieldId(78);
/// `ipv6.addr`: either address.
pub const IPV6_ADDR: FieldId = FieldId(79);
/// `ipv6.dst`: destination address.
pub const IPV6_DST: FieldId = FieldId(80);
/// `ipv6.hopopts`: hop-by-hop options header.
pub const IPV6_HOPOPTS: FieldId = FieldId(81);
/// `ipv6.hopopts.nxt`: next header.
pub const IPV6_HOPOPTS_NXT: FieldId = FieldId(82);
/// `ipv6.hopopts.len`: length in units of 8 bytes, the first not counted.
pub const IPV6_HOPOPTS_LEN: FieldId = FieldId(83);
/// `ipv6.hopopts.options`: options.
pub const IPV6_HOPOPTS_OPTIONS: FieldId = FieldId(84);
/// `ipv6.dstopts`: destination options header.
pub const IPV6_DSTOPTS: FieldId = FieldId(85);
/// `ipv6.dstopts.nxt`: next header.
pub const IPV6_DSTOPTS_NXT: FieldId = FieldId(86);
/// `ipv6.dstopts.len`: length in units of 8 bytes, the first not counted.
pub const IPV6_DSTOPTS_LEN: FieldId = FieldId(87);
/// `ipv6.dstopts.options`: options.
pub const IPV6_DSTOPTS_OPTIONS: FieldId = FieldId(88);
/// `ipv6.routing`: routing header.
pub const IPV6_ROUTING: FieldId = FieldId(89);
/// `ipv6.routing.nxt`: next header.
pub const IPV6_ROUTING_NXT: FieldId = FieldId(90);
/// `ipv6.routing.len`: length in units of 8 bytes, the first not counted.
pub const IPV6_ROUTING_LEN: FieldId = FieldId(91);
/// `ipv6.routing.type`: routing type.
pub const IPV6_ROUTING_TYPE: FieldId = FieldId(92);
/// `ipv6.routing.segleft`: segments left.
pub const IPV6_ROUTING_SEGLEFT: FieldId = FieldId(93);
/// `ipv6.routing.rest`: data of the routing type.
pub const IPV6_ROUTING_REST: FieldId = FieldId(94);
/// `ipv6.fraghdr`: fragment header.
pub const IPV6_FRAGHDR: FieldId = FieldId(95);
/// `ipv6.fraghdr.nxt`: next header.
pub const IPV6_FRAGHDR_NXT: FieldId = FieldId(96);
/// `ipv6.fraghdr.offset`: place of the fragment, in units of 8 bytes.
pub const IPV6_FRAGHDR_OFFSET: FieldId = FieldId(97);
/// `ipv6.fraghdr.more`: more fragments.
pub const IPV6_FRAGHDR_MORE: FieldId = FieldId(98);
/// `ipv6.fraghdr.ident`: identification, the same in all fragments.
pub const IPV6_FRAGHDR_IDENT: FieldId = FieldId(99);
/// `ipv6.fragment`: number of a frame that brought a fragment of the joined datagram.
pub const IPV6_FRAGMENT: FieldId = FieldId(100);
/// `ipv6.reassembled.length`: length of the joined datagram, in bytes.
pub const IPV6_REASSEMBLED_LENGTH: FieldId = FieldId(101);
/// `ipv6.fragment.error`: why fragments can't be joined: 1 too long, 2 two tails, 3 overlap.
pub const IPV6_FRAGMENT_ERROR: FieldId = FieldId(102);
/// `ipv6.reassembled.in`: number of the frame in which the datagram was joined.
pub const IPV6_REASSEMBLED_IN: FieldId = FieldId(103);
/// `icmp`: Internet Control Message Protocol.
pub const ICMP: FieldId = FieldId(104);
/// `icmp.type`: type of the message.
pub const ICMP_TYPE: FieldId = FieldId(105);
/// `icmp.code`: code within the type.
pub const ICMP_CODE: FieldId = FieldId(106);
/// `icmp.checksum`: checksum.
pub const ICMP_CHECKSUM: FieldId = FieldId(107);
/// `icmp.ident`: identifier of an echo.
pub const ICMP_IDENT: FieldId = FieldId(108);
/// `icmp.seq`: sequence number of an echo.
pub const ICMP_SEQ: FieldId = FieldId(109);
/// `icmp.rest`: other second word.
pub const ICMP_REST: FieldId = FieldId(110);
/// `icmpv6`: Internet Control Message Protocol for IPv6.
pub const ICMPV6: FieldId = FieldId(111);
/// `icmpv6.type`: type of the message.
pub const ICMPV6_TYPE: FieldId = FieldId(112);
/// `icmpv6.code`: code within the type.
pub const ICMPV6_CODE: FieldId = FieldId(113);
/// `icmpv6.checksum`: checksum.
pub const ICMPV6_CHECKSUM: FieldId = FieldId(114);
/// `icmpv6.echo.identifier`: identifier of an echo.
pub const ICMPV6_ECHO_IDENTIFIER: FieldId = FieldId(115);
/// `icmpv6.echo.sequence_number`: sequence number of an echo.
pub const ICMPV6_ECHO_SEQUENCE_NUMBER: FieldId = FieldId(116);
/// `icmpv6.rest`: other second word.
pub const ICMPV6_REST: FieldId = FieldId(117);
/// `udp`: User Datagram Protocol.
pub const UDP: FieldId = FieldId(118);
/// `udp.srcport`: source port.
pub const UDP_SRCPORT: FieldId = FieldId(119);
/// `udp.port`: either port.
pub const UDP_PORT: FieldId = FieldId(120);
/// `udp.dstport`: destination port.
pub const UDP_DSTPORT: FieldId = FieldId(121);
/// `udp.length`: length of header and payload, in bytes.
pub const UDP_LENGTH: FieldId = FieldId(122);
/// `udp.checksum`: checksum.
pub const UDP_CHECKSUM: FieldId = FieldId(123);
/// `udp.stream`: number of the conversation, from 0.
pub const UDP_STREAM: FieldId = FieldId(124);
/// `udp.payload`: what the datagram carries.
pub const UDP_PAYLOAD: FieldId = FieldId(125);
/// `tcp`: Transmission Control Protocol.
pub const TCP: FieldId = FieldId(126);
/// `tcp.srcport`: source port.
pub const TCP_SRCPORT: FieldId = FieldId(127);
/// `tcp.port`: either port.
pub const TCP_PORT: FieldId = FieldId(128);
/// `tcp.dstport`: destination port.
pub const TCP_DSTPORT: FieldId = FieldId(129);
/// `tcp.seq_raw`: sequence number, as sent.
pub const TCP_SEQ_RAW: FieldId = FieldId(130);
/// `tcp.ack_raw`: acknowledgment number, as sent.
pub const TCP_ACK_RAW: FieldId = FieldId(131);
/// `tcp.hdr_len`: length of the header, in bytes.
pub const TCP_HDR_LEN: FieldId = FieldId(132);
/// `tcp.flags`: reserved bits and flags.
pub const TCP_FLAGS: FieldId = FieldId(133);
/// `tcp.flags.cwr`: congestion window reduced.
pub const TCP_FLAGS_CWR: FieldId = FieldId(134);
/// `tcp.flags.ece`: ECN echo.
pub const TCP_FLAGS_ECE: FieldId = FieldId(135);
/// `tcp.flags.urg`: urgent pointer counts.
pub const TCP_FLAGS_URG: FieldId = FieldId(136);
/// `tcp.flags.ack`: acknowledgment number counts.
pub const TCP_FLAGS_ACK: FieldId = FieldId(137);
/// `tcp.flags.push`: push.
pub const TCP_FLAGS_PUSH: FieldId = FieldId(138);
/// `tcp.flags.reset`: reset the connection.
pub const TCP_FLAGS_RESET: FieldId = FieldId(139);
/// `tcp.flags.syn`: synchronize sequence numbers.
pub const TCP_FLAGS_SYN: FieldId = FieldId(140);
/// `tcp.flags.fin`: no more data from the sender.
pub const TCP_FLAGS_FIN: FieldId = FieldId(141);
/// `tcp.window_size_value`: window, as sent.
pub const TCP_WINDOW_SIZE_VALUE: FieldId = FieldId(142);
/// `tcp.checksum`: checksum.
pub const TCP_CHECKSUM: FieldId = FieldId(143);
/// `tcp.urgent_pointer`: urgent pointer.
pub const TCP_URGENT_POINTER: FieldId = FieldId(144);
/// `tcp.options`: all options.
pub const TCP_OPTIONS: FieldId = FieldId(145);
/// `tcp.option_kind`: kind of an option.
pub const TCP_OPTION_KIND: FieldId = FieldId(146);
/// `tcp.option_len`: length of an option.
pub const TCP_OPTION_LEN: FieldId = FieldId(147);
/// `tcp.options.mss_val`: maximum segment size.
pub const TCP_OPTIONS_MSS_VAL: FieldId = FieldId(148);
/// `tcp.options.wscale.shift`: shift count of the window scale.
pub const TCP_OPTIONS_WSCALE_SHIFT: FieldId = FieldId(149);
/// `tcp.options.sack_perm`: option that permits selective acknowledgment.
pub const TCP_OPTIONS_SACK_PERM: FieldId = FieldId(150);
/// `tcp.options.sack_le`: left edge of a block received.
pub const TCP_OPTIONS_SACK_LE: FieldId = FieldId(151);
/// `tcp.options.sack_re`: right edge of a block received.
pub const TCP_OPTIONS_SACK_RE: FieldId = FieldId(152);
/// `tcp.options.timestamp.tsval`: timestamp value.
pub const TCP_OPTIONS_TIMESTAMP_TSVAL: FieldId = FieldId(153);
/// `tcp.options.timestamp.tsecr`: timestamp echo reply.
pub const TCP_OPTIONS_TIMESTAMP_TSECR: FieldId = FieldId(154);
/// `tcp.options.bad`: option that can't be read, to the header's end.
pub const TCP_OPTIONS_BAD: FieldId = FieldId(155);
/// `tcp.stream`: number of the conversation, from 0.
pub const TCP_STREAM: FieldId = FieldId(156);
/// `tcp.seq`: sequence number, counted from the direction's first.
pub const TCP_SEQ: FieldId = FieldId(157);
/// `tcp.ack`: acknowledgment number, counted from the other direction's first.
pub const TCP_ACK: FieldId = FieldId(158);
/// `tcp.len`: captured length of the payload, in bytes.
pub const TCP_LEN: FieldId = FieldId(159);
/// `tcp.payload`: what the segment carries.
pub const TCP_PAYLOAD: FieldId = FieldId(160);
/// `tcp.segment`: number of a frame that brought bytes of a message shown here.
pub const TCP_SEGMENT: FieldId = FieldId(161);
/// `tcp.reassembled_in`: number of the frame that shows a message with this segment's bytes.
pub const TCP_REASSEMBLED_IN: FieldId = FieldId(162);
/// `dns`: Domain Name System.
pub const DNS: FieldId = FieldId(163);
/// `dns.length`: length of the message, in a stream.
pub const DNS_LENGTH: FieldId = FieldId(164);
/// `dns.id`: identifier of the query.
pub const DNS_ID: FieldId = FieldId(165);
/// `dns.flags`: all flags.
pub const DNS_FLAGS: FieldId = FieldId(166);
/// `dns.flags.response`: response.
pub const DNS_FLAGS_RESPONSE: FieldId = FieldId(167);
/// `dns.flags.opcode`: kind of query.
pub const DNS_FLAGS_OPCODE: FieldId = FieldId(168);
/// `dns.flags.authoritative`: authoritative answer.
pub const DNS_FLAGS_AUTHORITATIVE: FieldId = FieldId(169);
/// `dns.flags.truncated`: message truncated.
pub const DNS_FLAGS_TRUNCATED: FieldId = FieldId(170);
/// `dns.flags.recdesired`: recursion desired.
pub const DNS_FLAGS_RECDESIRED: FieldId = FieldId(171);
/// `dns.flags.recavail`: recursion available.
pub const DNS_FLAGS_RECAVAIL: FieldId = FieldId(172);
/// `dns.flags.z`: reserved bit.
pub const DNS_FLAGS_Z: FieldId = FieldId(173);
/// `dns.flags.authenticated`: authentic data.
pub const DNS_FLAGS_AUTHENTICATED: FieldId = FieldId(174);
/// `dns.flags.checkdisable`: checking disabled.
pub const DNS_FLAGS_CHECKDISABLE: FieldId = FieldId(175);
/// `dns.flags.rcode`: response code.
pub const DNS_FLAGS_RCODE: FieldId = FieldId(176);
/// `dns.count.queries`: number of questions.
pub const DNS_COUNT_QUERIES: FieldId = FieldId(177);
/// `dns.count.answers`: number of answers.
pub const DNS_COUNT_ANSWERS: FieldId = FieldId(178);
/// `dns.count.auth_rr`: number of authority records.
pub const DNS_COUNT_AUTH_RR: FieldId = FieldId(179);
/// `dns.count.add_rr`: number of additional records.
pub const DNS_COUNT_ADD_RR: FieldId = FieldId(180);
/// `dns.qry.name`: name asked for.
pub const DNS_QRY_NAME: FieldId = FieldId(181);
/// `dns.qry.type`: type asked for.
pub const DNS_QRY_TYPE: FieldId = FieldId(182);
/// `dns.qry.class`: class asked for.
pub const DNS_QRY_CLASS: FieldId = FieldId(183);
/// `dns.resp.name`: name of a record's owner.
pub const DNS_RESP_NAME: FieldId = FieldId(184);
/// `dns.resp.type`: type of a record.
pub const DNS_RESP_TYPE: FieldId = FieldId(185);
/// `dns.resp.class`: class of a record.
pub const DNS_RESP_CLASS: FieldId = FieldId(186);
/// `dns.resp.ttl`: seconds that a record may be kept.
pub const DNS_RESP_TTL: FieldId = FieldId(187);
/// `dns.resp.len`: length of a record's data.
pub const DNS_RESP_LEN: FieldId = FieldId(188);
/// `dns.a`: IPv4 address.
pub const DNS_A: FieldId = FieldId(189);
/// `dns.aaaa`: IPv6 address.
pub const DNS_AAAA: FieldId = FieldId(190);
/// `dns.ns`: name server.
pub const DNS_NS: FieldId = FieldId(191);
/// `dns.cname`: canonical name.
pub const DNS_CNAME: FieldId = FieldId(192);
/// `dns.ptr.domain_name`: name pointed to.
pub const DNS_PTR_DOMAIN_NAME: FieldId = FieldId(193);
/// `dns.mx.preference`: preference of a mail exchange.
pub const DNS_MX_PREFERENCE: FieldId = FieldId(194);
/// `dns.mx.mail_exchange`: mail exchange.
pub const DNS_MX_MAIL_EXCHANGE: FieldId = FieldId(195);
/// `dns.soa.mname`: primary name server.
pub const DNS_SOA_MNAME: FieldId = FieldId(196);
/// `dns.soa.rname`: mailbox of who answers for the zone.
pub const DNS_SOA_RNAME: FieldId = FieldId(197);
/// `dns.soa.serial_number`: version of the zone.
pub const DNS_SOA_SERIAL_NUMBER: FieldId = FieldId(198);
/// `dns.soa.refresh_interval`: seconds until the zone is refreshed.
pub const DNS_SOA_REFRESH_INTERVAL: FieldId = FieldId(199);
/// `dns.soa.retry_interval`: seconds until a failed refresh is tried again.
pub const DNS_SOA_RETRY_INTERVAL: FieldId = FieldId(200);
/// `dns.soa.expire_limit`: seconds until the zone is no longer authoritative.
pub const DNS_SOA_EXPIRE_LIMIT: FieldId = FieldId(201);
/// `dns.soa.minimum_ttl`: least time to live in the zone.
pub const DNS_SOA_MINIMUM_TTL: FieldId = FieldId(202);
/// `dns.txt`: text.
pub const DNS_TXT: FieldId = FieldId(203);
/// `dns.data`: data of another record.
pub const DNS_DATA: FieldId = FieldId(204);
/// `dns.response_to`: number of the query's frame.
pub const DNS_RESPONSE_TO: FieldId = FieldId(205);
/// `dns.response_in`: number of the response's frame.
pub const DNS_RESPONSE_IN: FieldId = FieldId(206);
/// `dhcp`: Dynamic Host Configuration Protocol.
pub const DHCP: FieldId = FieldId(207);
/// `dhcp.type`: request (1) or reply (2).
pub const DHCP_TYPE: FieldId = FieldId(208);
/// `dhcp.hw.type`: hardware type.
pub const DHCP_HW_TYPE: FieldId = FieldId(209);
/// `dhcp.hw.len`: length of the hardware address.
pub const DHCP_HW_LEN: FieldId = FieldId(210);
/// `dhcp.hops`: relay agents passed.
pub const DHCP_HOPS: FieldId = FieldId(211);
/// `dhcp.id`: transaction.
pub const DHCP_ID: FieldId = FieldId(212);
/// `dhcp.secs`: seconds since the client began.
pub const DHCP_SECS: FieldId = FieldId(213);
/// `dhcp.flags`: all flags.
pub const DHCP_FLAGS: FieldId = FieldId(214);
/// `dhcp.flags.bc`: broadcast.
pub const DHCP_FLAGS_BC: FieldId = FieldId(215);
/// `dhcp.ip.client`: address that the client has.
pub const DHCP_IP_CLIENT: FieldId = FieldId(216);
/// `dhcp.ip.your`: address that the client gets.
pub const DHCP_IP_YOUR: FieldId = FieldId(217);
/// `dhcp.ip.server`: address of the next server.
pub const DHCP_IP_SERVER: FieldId = FieldId(218);
/// `dhcp.ip.relay`: address of the relay agent.
pub const DHCP_IP_RELAY: FieldId = FieldId(219);
/// `dhcp.hw.mac_addr`: Ethernet address of the client.
pub const DHCP_HW_MAC_ADDR: FieldId = FieldId(220);
/// `dhcp.hw.addr`: other hardware address of the client, 16 bytes.
pub const DHCP_HW_ADDR: FieldId = FieldId(221);
/// `dhcp.server`: name of the server.
pub const DHCP_SERVER: FieldId = FieldId(222);
/// `dhcp.file`: name of the boot file.
pub const DHCP_FILE: FieldId = FieldId(223);
/// `dhcp.cookie`: magic cookie, 0x63825363.
pub const DHCP_COOKIE: FieldId = FieldId(224);
/// `dhcp.option.type`: code of an option.
pub const DHCP_OPTION_TYPE: FieldId = FieldId(225);
/// `dhcp.option.length`: length of an option.
pub const DHCP_OPTION_LENGTH: FieldId = FieldId(226);
/// `dhcp.option.value`: data of an option.
pub const DHCP_OPTION_VALUE: FieldId = FieldId(227);
/// `dhcp.option.subnet_mask`: subnet mask.
pub const DHCP_OPTION_SUBNET_MASK: FieldId = FieldId(228);
/// `dhcp.option.router`: router.
pub const DHCP_OPTION_ROUTER: FieldId = FieldId(229);
/// `dhcp.option.domain_name_server`: name server.
pub const DHCP_OPTION_DOMAIN_NAME_SERVER: FieldId = FieldId(230);
/// `dhcp.option.hostname`: name of the client.
pub const DHCP_OPTION_HOSTNAME: FieldId = FieldId(231);
/// `dhcp.option.requested_ip_address`: address asked for.
pub const DHCP_OPTION_REQUESTED_IP_ADDRESS: FieldId = FieldId(232);
/// `dhcp.option.ip_address_lease_time`: lease in seconds.
pub const DHCP_OPTION_IP_ADDRESS_LEASE_TIME: FieldId = FieldId(233);
/// `dhcp.option.dhcp`: type of the message.
pub const DHCP_OPTION_DHCP: FieldId = FieldId(234);
/// `dhcp.option.dhcp_server_id`: address of the server.
pub const DHCP_OPTION_DHCP_SERVER_ID: FieldId = FieldId(235);
/// `http`: Hypertext Transfer Protocol, versions 1.0 and 1.1.
pub const HTTP: FieldId = FieldId(236);
/// `http.request`: true, in a request.
pub const HTTP_REQUEST: FieldId = FieldId(237);
/// `http.request.method`: method.
pub const HTTP_REQUEST_METHOD: FieldId = FieldId(238);
/// `http.request.uri`: request target.
pub const HTTP_REQUEST_URI: FieldId = FieldId(239);
/// `http.request.version`: version of a request.
pub const HTTP_REQUEST_VERSION: FieldId = FieldId(240);
/// `http.response`: true, in a response.
pub const HTTP_RESPONSE: FieldId = FieldId(241);
/// `http.response.version`: version of a response.
pub const HTTP_RESPONSE_VERSION: FieldId = FieldId(242);
/// `http.response.code`: status code.
pub const HTTP_RESPONSE_CODE: FieldId = FieldId(243);
/// `http.response.phrase`: reason phrase.
pub const HTTP_RESPONSE_PHRASE: FieldId = FieldId(244);
/// `http.header.name`: name of a field line.
pub const HTTP_HEADER_NAME: FieldId = FieldId(245);
/// `http.header.value`: value of a field line.
pub const HTTP_HEADER_VALUE: FieldId = FieldId(246);
/// `http.host`: value of Host.
pub const HTTP_HOST: FieldId = FieldId(247);
/// `http.user_agent`: value of User-Agent.
pub const HTTP_USER_AGENT: FieldId = FieldId(248);
/// `http.content_type`: value of Content-Type.
pub const HTTP_CONTENT_TYPE: FieldId = FieldId(249);
/// `http.content_length_header`: value of Content-Length.
pub const HTTP_CONTENT_LENGTH_HEADER: FieldId = FieldId(250);
/// `http.transfer_encoding`: value of Transfer-Encoding.
pub const HTTP_TRANSFER_ENCODING: FieldId = FieldId(251);
/// `http.content_encoding`: value of Content-Encoding.
pub const HTTP_CONTENT_ENCODING: FieldId = FieldId(252);
/// `http.server`: value of Server.
pub const HTTP_SERVER: FieldId = FieldId(253);
/// `http.location`: value of Location.
pub const HTTP_LOCATION: FieldId = FieldId(254);
/// `http.connection`: value of Connection.
pub const HTTP_CONNECTION: FieldId = FieldId(255);
/// `http.cookie`: value of Cookie.
pub const HTTP_COOKIE: FieldId = FieldId(256);
/// `http.set_cookie`: value of Set-Cookie.
pub const HTTP_SET_COOKIE: FieldId = FieldId(257);
/// `http.referer`: value of Referer.
pub const HTTP_REFERER: FieldId = FieldId(258);
/// `http.accept`: value of Accept.
pub const HTTP_ACCEPT: FieldId = FieldId(259);
/// `http.date`: value of Date.
pub const HTTP_DATE: FieldId = FieldId(260);
/// `http.file_data`: body, its chunks joined.
pub const HTTP_FILE_DATA: FieldId = FieldId(261);
/// `http.request_in`: number of the request's frame.
pub const HTTP_REQUEST_IN: FieldId = FieldId(262);
/// `http.response_in`: number of the response's frame.
pub const HTTP_RESPONSE_IN: FieldId = FieldId(263);
/// `data`: bytes that no protocol reads.
pub const DATA: FieldId = FieldId(264);
/// `data.data`: these bytes.
pub const DATA_DATA: FieldId = FieldId(265);
/// `data.len`: how many they are.
pub const DATA_LEN: FieldId = FieldId(266);
/// `_ws.short`: the capture cut the layer before this.
pub const WS_SHORT: FieldId = FieldId(267);
/// `_ws.malformed`: the layer before this breaks its protocol's rules.
pub const WS_MALFORMED: FieldId = FieldId(268);
/// `tcp.lost`: bytes of gaps that this segment passes over as lost.
pub const TCP_LOST: FieldId = FieldId(269);
/// `nd`: Neighbor Discovery for IPv6, behind the ICMPv6 checksum.
pub const ND: FieldId = FieldId(270);
/// `nd.reserved`: reserved bytes of a solicitation or a redirect, 4 bytes.
pub const ND_RESERVED: FieldId = FieldId(271);
/// `nd.ra.hop_limit`: hop limit for packets that are sent.
pub const ND_RA_HOP_LIMIT: FieldId = FieldId(272);
/// `nd.ra.managed`: addresses come by DHCPv6.
pub const ND_RA_MANAGED: FieldId = FieldId(273);
/// `nd.ra.other`: other configuration comes by DHCPv6.
pub const ND_RA_OTHER: FieldId = FieldId(274);
/// `nd.ra.lifetime`: seconds that the router serves as default.
pub const ND_RA_LIFETIME: FieldId = FieldId(275);
/// `nd.ra.reachable`: milliseconds that a neighbour counts as reachable.
pub const ND_RA_REACHABLE: FieldId = FieldId(276);
/// `nd.ra.retrans`: milliseconds between solicitations.
pub const ND_RA_RETRANS: FieldId = FieldId(277);
/// `nd.target`: address that is asked for, told of or led to.
pub const ND_TARGET: FieldId = FieldId(278);
/// `nd.na.router`: sent by a router.
pub const ND_NA_ROUTER: FieldId = FieldId(279);
/// `nd.na.solicited`: answers a solicitation.
pub const ND_NA_SOLICITED: FieldId = FieldId(280);
/// `nd.na.override`: replaces a kept link-layer address.
pub const ND_NA_OVERRIDE: FieldId = FieldId(281);
/// `nd.destination`: address whose packets are redirected.
pub const ND_DESTINATION: FieldId = FieldId(282);
/// `nd.opt.type`: type of an option.
pub const ND_OPT_TYPE: FieldId = FieldId(283);
/// `nd.opt.len`: length of an option, in units of 8 bytes.
pub const ND_OPT_LEN: FieldId = FieldId(284);
/// `nd.opt.value`: bytes of an option behind its length.
pub const ND_OPT_VALUE: FieldId = FieldId(285);
/// `nd.opt.lladdr`: link-layer address of an option.
pub const ND_OPT_LLADDR: FieldId = FieldId(286);
/// `nd.opt.prefix_len`: length of a prefix, in bits.
pub const ND_OPT_PREFIX_LEN: FieldId = FieldId(287);
/// `nd.opt.prefix_onlink`: addresses with the prefix are on the link.
pub const ND_OPT_PREFIX_ONLINK: FieldId = FieldId(288);
/// `nd.opt.prefix_auto`: the prefix serves for stateless configuration.
pub const ND_OPT_PREFIX_AUTO: FieldId = FieldId(289);
/// `nd.opt.prefix_valid`: seconds that the prefix is valid.
pub const ND_OPT_PREFIX_VALID: FieldId = FieldId(290);
/// `nd.opt.prefix_preferred`: seconds that its addresses are preferred.
pub const ND_OPT_PREFIX_PREFERRED: FieldId = FieldId(291);
/// `nd.opt.prefix`: prefix.
pub const ND_OPT_PREFIX: FieldId = FieldId(292);
/// `nd.opt.mtu`: MTU of the link.
pub const ND_OPT_MTU: FieldId = FieldId(293);
/// `igmp`: Internet Group Management Protocol, version 2.
pub const IGMP: FieldId = FieldId(294);
/// `igmp.type`: type of the message.
pub const IGMP_TYPE: FieldId = FieldId(295);
/// `igmp.max_resp`: most tenths of a second until a report.
pub const IGMP_MAX_RESP: FieldId = FieldId(296);
/// `igmp.checksum`: checksum.
pub const IGMP_CHECKSUM: FieldId = FieldId(297);
/// `igmp.maddr`: group address.
pub const IGMP_MADDR: FieldId = FieldId(298);
/// `ntp`: Network Time Protocol.
pub const NTP: FieldId = FieldId(299);
/// `ntp.flags.li`: leap indicator.
pub const NTP_FLAGS_LI: FieldId = FieldId(300);
/// `ntp.flags.vn`: version.
pub const NTP_FLAGS_VN: FieldId = FieldId(301);
/// `ntp.flags.mode`: mode.
pub const NTP_FLAGS_MODE: FieldId = FieldId(302);
/// `ntp.stratum`: stratum.
pub const NTP_STRATUM: FieldId = FieldId(303);
/// `ntp.ppoll`: most seconds between messages, as a power of 2.
pub const NTP_PPOLL: FieldId = FieldId(304);
/// `ntp.precision`: precision of the clock, its sign bit shown as a number.
pub const NTP_PRECISION: FieldId = FieldId(305);
/// `ntp.rootdelay`: round trip to the reference clock, in seconds by 65,536.
pub const NTP_ROOTDELAY: FieldId = FieldId(306);
/// `ntp.rootdispersion`: dispersion to the reference clock, in seconds by 65,536.
pub const NTP_ROOTDISPERSION: FieldId = FieldId(307);
/// `ntp.refid`: reference identifier, 4 bytes.
pub const NTP_REFID: FieldId = FieldId(308);
/// `ntp.reftime`: when the clock was last set, 8 bytes.
pub const NTP_REFTIME: FieldId = FieldId(309);
/// `ntp.org`: when the request left the client, 8 bytes.
pub const NTP_ORG: FieldId = FieldId(310);
/// `ntp.rec`: when the request came to the server, 8 bytes.
pub const NTP_REC: FieldId = FieldId(311);
/// `ntp.xmt`: when the message left, 8 bytes.
pub const NTP_XMT: FieldId = FieldId(312);
/// `mdns`: Multicast DNS.
pub const MDNS: FieldId = FieldId(313);
/// `mdns.id`: identifier of the query.
pub const MDNS_ID: FieldId = FieldId(314);
/// `mdns.flags`: all flags.
pub const MDNS_FLAGS: FieldId = FieldId(315);
/// `mdns.flags.response`: response.
pub const MDNS_FLAGS_RESPONSE: FieldId = FieldId(316);
/// `mdns.flags.opcode`: kind of query.
pub const MDNS_FLAGS_OPCODE: FieldId = FieldId(317);
/// `mdns.flags.authoritative`: authoritative answer.
pub const MDNS_FLAGS_AUTHORITATIVE: FieldId = FieldId(318);
/// `mdns.flags.truncated`: message truncated.
pub const MDNS_FLAGS_TRUNCATED: FieldId = FieldId(319);
/// `mdns.flags.recdesired`: recursion desired.
pub const MDNS_FLAGS_RECDESIRED: FieldId = FieldId(320);
/// `mdns.flags.recavail`: recursion available.
pub const MDNS_FLAGS_RECAVAIL: FieldId = FieldId(321);
/// `mdns.flags.z`: reserved bit.
pub const MDNS_FLAGS_Z: FieldId = FieldId(322);
/// `mdns.flags.authenticated`: authentic data.
pub const MDNS_FLAGS_AUTHENTICATED: FieldId = FieldId(323);
/// `mdns.flags.checkdisable`: checking disabled.
pub const MDNS_FLAGS_CHECKDISABLE: FieldId = FieldId(324);
/// `mdns.flags.rcode`: response code.
pub const MDNS_FLAGS_RCODE: FieldId = FieldId(325);
/// `mdns.count.queries`: number of questions.
pub const MDNS_COUNT_QUERIES: FieldId = FieldId(326);
/// `mdns.count.answers`: number of answers.
pub const MDNS_COUNT_ANSWERS: FieldId = FieldId(327);
/// `mdns.count.auth_rr`: number of authority records.
pub const MDNS_COUNT_AUTH_RR: FieldId = FieldId(328);
/// `mdns.count.add_rr`: number of additional records.
pub const MDNS_COUNT_ADD_RR: FieldId = FieldId(329);
/// `mdns.qry.name`: name asked for.
pub const MDNS_QRY_NAME: FieldId = FieldId(330);
/// `mdns.qry.type`: type asked for.
pub const MDNS_QRY_TYPE: FieldId = FieldId(331);
/// `mdns.qry.qu`: a unicast response is wanted.
pub const MDNS_QRY_QU: FieldId = FieldId(332);
/// `mdns.qry.class`: class asked for.
pub const MDNS_QRY_CLASS: FieldId = FieldId(333);
/// `mdns.resp.name`: name of a record's owner.
pub const MDNS_RESP_NAME: FieldId = FieldId(334);
/// `mdns.resp.type`: type of a record.
pub const MDNS_RESP_TYPE: FieldId = FieldId(335);
/// `mdns.resp.cache_flush`: the record replaces those kept before.
pub const MDNS_RESP_CACHE_FLUSH: FieldId = FieldId(336);
/// `mdns.resp.class`: class of a record.
pub const MDNS_RESP_CLASS: FieldId = FieldId(337);
/// `mdns.resp.ttl`: seconds that a record may be kept.
pub const MDNS_RESP_TTL: FieldId = FieldId(338);
/// `mdns.resp.len`: length of a record's data.
pub const MDNS_RESP_LEN: FieldId = FieldId(339);
/// `mdns.a`: IPv4 address.
pub const MDNS_A: FieldId = FieldId(340);
/// `mdns.aaaa`: IPv6 address.
pub const MDNS_AAAA: FieldId = FieldId(341);
/// `mdns.ns`: name server.
pub const MDNS_NS: FieldId = FieldId(342);
/// `mdns.cname`: canonical name.
pub const MDNS_CNAME: FieldId = FieldId(343);
/// `mdns.ptr.domain_name`: name pointed to.
pub const MDNS_PTR_DOMAIN_NAME: FieldId = FieldId(344);
/// `mdns.mx.preference`: preference of a mail exchange.
pub const MDNS_MX_PREFERENCE: FieldId = FieldId(345);
/// `mdns.mx.mail_exchange`: mail exchange.
pub const MDNS_MX_MAIL_EXCHANGE: FieldId = FieldId(346);
/// `mdns.soa.mname`: primary name server.
pub const MDNS_SOA_MNAME: FieldId = FieldId(347);
/// `mdns.soa.rname`: mailbox of who answers for the zone.
pub const MDNS_SOA_RNAME: FieldId = FieldId(348);
/// `mdns.soa.serial_number`: version of the zone.
pub const MDNS_SOA_SERIAL_NUMBER: FieldId = FieldId(349);
/// `mdns.soa.refresh_interval`: seconds until the zone is refreshed.
pub const MDNS_SOA_REFRESH_INTERVAL: FieldId = FieldId(350);
/// `mdns.soa.retry_interval`: seconds until a failed refresh is tried again.
pub const MDNS_SOA_RETRY_INTERVAL: FieldId = FieldId(351);
/// `mdns.soa.expire_limit`: seconds until the zone is no longer authoritative.
pub const MDNS_SOA_EXPIRE_LIMIT: FieldId = FieldId(352);
/// `mdns.soa.minimum_ttl`: least time to live in the zone.
pub const MDNS_SOA_MINIMUM_TTL: FieldId = FieldId(353);
/// `mdns.srv.priority`: priority of a host for a service.
pub const MDNS_SRV_PRIORITY: FieldId = FieldId(354);
/// `mdns.srv.weight`: weight among hosts of one priority.
pub const MDNS_SRV_WEIGHT: FieldId = FieldId(355);
/// `mdns.srv.port`: port of a service.
pub const MDNS_SRV_PORT: FieldId = FieldId(356);
/// `mdns.srv.target`: host of a service.
pub const MDNS_SRV_TARGET: FieldId = FieldId(357);
/// `mdns.txt`: text.
pub const MDNS_TXT: FieldId = FieldId(358);
/// `mdns.data`: data of another record.
pub const MDNS_DATA: FieldId = FieldId(359);
