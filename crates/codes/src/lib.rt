// Numbers with names, and nothing else. The terminals stand here, the rest in modules.
// This file is written by tools/codes from its list of words and symbols.
#![tactic(auto)]

pub mod answers;
pub mod ends;
pub mod labels;
pub mod limits;
pub mod nodes;
pub mod replies;
pub mod roles;
pub mod tokens;
pub mod types;

// No terminal begins, or the tokens are at their end.
pub const NONE: u8 = 0;

// A word that is not reserved, and the literals.
pub const IDENTIFIER: u8 = 1;

pub const INTEGER_LITERAL: u8 = 2;

pub const REAL_LITERAL: u8 = 3;

pub const STRING_LITERAL: u8 = 4;

pub const BINARY_LITERAL: u8 = 5;

// The symbols.
pub const QUESTION: u8 = 6;

pub const DOT: u8 = 7;

pub const COMMA: u8 = 8;

pub const SEMICOLON: u8 = 9;

pub const COLON: u8 = 10;

pub const TIMES: u8 = 11;

pub const PLUS: u8 = 12;

pub const MINUS: u8 = 13;

pub const EQUAL: u8 = 14;

pub const BACKSLASH: u8 = 15;

pub const SLASH: u8 = 16;

pub const LESS: u8 = 17;

pub const GREATER: u8 = 18;

pub const LBRACKET: u8 = 19;

pub const RBRACKET: u8 = 20;

pub const LBRACE: u8 = 21;

pub const RBRACE: u8 = 22;

pub const BAR: u8 = 23;

pub const LPAREN: u8 = 24;

pub const RPAREN: u8 = 25;

pub const LESS_EQUAL: u8 = 26;

pub const UNEQUAL: u8 = 27;

pub const GREATER_EQUAL: u8 = 28;

pub const ALL_IN: u8 = 29;

pub const BECOMES: u8 = 30;

pub const CONSTRUCT: u8 = 31;

pub const POWER: u8 = 32;

pub const INSTANCE_EQUAL: u8 = 33;

pub const INSTANCE_UNEQUAL: u8 = 34;

// The reserved words: every code from the first of them on is one.
pub const FIRST_WORD: u8 = ABS;

pub const ABS: u8 = 35;

pub const ABSTRACT: u8 = 36;

pub const ACOS: u8 = 37;

pub const AGGREGATE: u8 = 38;

pub const ALIAS: u8 = 39;

pub const AND: u8 = 40;

pub const ANDOR: u8 = 41;

pub const ARRAY: u8 = 42;

pub const AS: u8 = 43;

pub const ASIN: u8 = 44;

pub const ATAN: u8 = 45;

pub const BAG: u8 = 46;

pub const BEGIN: u8 = 47;

pub const BINARY: u8 = 48;

pub const BLENGTH: u8 = 49;

pub const BOOLEAN: u8 = 50;

pub const BY: u8 = 51;

pub const CASE: u8 = 52;

pub const CONSTANT: u8 = 53;

pub const CONST_E: u8 = 54;

pub const CONTEXT: u8 = 55;

pub const COS: u8 = 56;

pub const DERIVE: u8 = 57;

pub const DIV: u8 = 58;

pub const ELSE: u8 = 59;

pub const END: u8 = 60;

pub const END_ALIAS: u8 = 61;

pub const END_CASE: u8 = 62;

pub const END_CONSTANT: u8 = 63;

pub const END_CONTEXT: u8 = 64;

pub const END_ENTITY: u8 = 65;

pub const END_FUNCTION: u8 = 66;

pub const END_IF: u8 = 67;

pub const END_LOCAL: u8 = 68;

pub const END_MODEL: u8 = 69;

pub const END_PROCEDURE: u8 = 70;

pub const END_REPEAT: u8 = 71;

pub const END_RULE: u8 = 72;

pub const END_SCHEMA: u8 = 73;

pub const END_TYPE: u8 = 74;

pub const ENTITY: u8 = 75;

pub const ENUMERATION: u8 = 76;

pub const ESCAPE: u8 = 77;

pub const EXISTS: u8 = 78;

pub const EXP: u8 = 79;

pub const FALSE: u8 = 80;

pub const FIXED: u8 = 81;

pub const FOR: u8 = 82;

pub const FORMAT: u8 = 83;

pub const FROM: u8 = 84;

pub const FUNCTION: u8 = 85;

pub const GENERIC: u8 = 86;

pub const HIBOUND: u8 = 87;

pub const HIINDEX: u8 = 88;

pub const IF: u8 = 89;

pub const IN: u8 = 90;

pub const INSERT: u8 = 91;

pub const INTEGER: u8 = 92;

pub const INVERSE: u8 = 93;

pub const LENGTH: u8 = 94;

pub const LIKE: u8 = 95;

pub const LIST: u8 = 96;

pub const LOBOUND: u8 = 97;

pub const LOCAL: u8 = 98;

pub const LOG: u8 = 99;

pub const LOG10: u8 = 100;

pub const LOG2: u8 = 101;

pub const LOGICAL: u8 = 102;

pub const LOINDEX: u8 = 103;

pub const MOD: u8 = 104;

pub const MODEL: u8 = 105;

pub const NOT: u8 = 106;

pub const NUMBER: u8 = 107;

pub const NVL: u8 = 108;

pub const ODD: u8 = 109;

pub const OF: u8 = 110;

pub const ONEOF: u8 = 111;

pub const OPTIONAL: u8 = 112;

pub const OR: u8 = 113;

pub const OTHERWISE: u8 = 114;

pub const PI: u8 = 115;

pub const PROCEDURE: u8 = 116;

pub const QUERY: u8 = 117;

pub const REAL: u8 = 118;

pub const REFERENCE: u8 = 119;

pub const REMOVE: u8 = 120;

pub const REPEAT: u8 = 121;

pub const RETURN: u8 = 122;

pub const ROLESOF: u8 = 123;

pub const RULE: u8 = 124;

pub const SCHEMA: u8 = 125;

pub const SELECT: u8 = 126;

pub const SELF: u8 = 127;

pub const SET: u8 = 128;

pub const SIN: u8 = 129;

pub const SIZEOF: u8 = 130;

pub const SKIP: u8 = 131;

pub const SQRT: u8 = 132;

pub const STRING: u8 = 133;

pub const SUBTYPE: u8 = 134;

pub const SUPERTYPE: u8 = 135;

pub const TAN: u8 = 136;

pub const THEN: u8 = 137;

pub const TO: u8 = 138;

pub const TRUE: u8 = 139;

pub const TYPE: u8 = 140;

pub const TYPEOF: u8 = 141;

pub const UNIQUE: u8 = 142;

pub const UNKNOWN: u8 = 143;

pub const UNTIL: u8 = 144;

pub const USE: u8 = 145;

pub const USEDIN: u8 = 146;

pub const VALUE: u8 = 147;

pub const VALUE_IN: u8 = 148;

pub const VALUE_UNIQUE: u8 = 149;

pub const VAR: u8 = 150;

pub const WHERE: u8 = 151;

pub const WHILE: u8 = 152;

pub const XOR: u8 = 153;
