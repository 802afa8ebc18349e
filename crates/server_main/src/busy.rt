/// What a link is answered that is not served, since as many are as may be at once, or no thread could be had.
pub(crate) const BUSY: &[u8] =
    b"HTTP/1.1 503 Service Unavailable\r\nContent-Type: application/json\r\n\
    Connection: close\r\nContent-Length: 78\r\n\r\n\
    {\"error\":\"too many connections\",\"error_code\":503,\"metadata\":{},\"type\":\"error\"}";
